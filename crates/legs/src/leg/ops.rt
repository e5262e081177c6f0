// What a leg gives to an implied order.
ghost use Rattle.std.specs.Prelude.{◌≡◌, ◌*◌, ◌≤◌, true, false, IfOk, IfErr, pos, negsuc, ◌≤ℤ◌};
ghost use Rattle.legs.specs.Model.{by_side, used, leg_price, leg_size, taken_leg};
ghost use Rattle.market.specs.declared.names.Side.TheVariants.{Buy};
ghost use Rattle.market.specs.declared.names.Edge.TheVariants.{Bid, Offer};
ghost use Rattle.legs.specs.Sides.{side_held};
ghost use Rattle.legs.specs.Making.{fresh_leg, part_ok, part_leg};
ghost use Rattle.legs.specs.Quoting.{quoted_leg};
ghost use Rattle.legs.specs.Legs.{leg_held};

use super::super::fields::HIGHEST_RATIO;
use super::super::legside::LegSide;
use super::LegQuotes;
use market::names::{Edge, Leg, Side};
use market::refusal::Refusal;

// An `ArrayVec` fills its unused places with it.
impl Default for LegQuotes {
    ghost is_default = { λ l. leg_held l ≡ fresh_leg Buy (pos 1) };

    fn default() -> LegQuotes {
        LegQuotes::new(Leg {
            side: Side::Buy,
            ratio: 1,
        })
        .unwrap()
    }
}

impl LegQuotes {
    // A leg without quotes; refused where its ratio is outside its limits.
    pub(crate) fn new(part: Leg) -> Result<LegQuotes, Refusal>
        ensures ok { IfOk result (λ l. (part_ok part ≡ true) × (leg_held l ≡ part_leg part)) }
        ensures err { IfErr result (λ e. (part_ok part ≡ false) × (e ≡ Refusal.OutOfLimits)) }
    {
        if !(1..=HIGHEST_RATIO).contains(&part.ratio) {
            return Err(Refusal::OutOfLimits);
        }
        // By hand, here and in `price`: `try_from` tests the types' limits, which are wider than these.
        Ok(LegQuotes {
            side: part.side,
            ratio: part.ratio as u32,
            bid: LegSide::new(),
            offer: LegSide::new(),
        })
    }

    // The edge that an implied order of a side uses.
    fn edge(&self, side: Side) -> Edge
        ensures { result ≡ by_side side (leg_held self.now).side Bid Offer }
    {
        if side == self.side {
            Edge::Bid
        } else {
            Edge::Offer
        }
    }

    // The side of the leg that it uses.
    fn used(&self, side: Side) -> &LegSide
        ensures { side_held result.now ≡ used side (leg_held self.now) }
    {
        match self.edge(side) {
            Edge::Bid => &self.bid,
            Edge::Offer => &self.offer,
        }
    }

    // What the leg comes to there.
    fn worth(&self, side: Side) -> u32
        ensures value { result ≡ (leg_held self.now).ratio * (used side (leg_held self.now)).price }
        ensures bound { result ≤ 250000 }
    {
        self.ratio * self.used(side).price()
    }

    // What the leg adds to the price of an implied order.
    pub(crate) fn price(&self, side: Side) -> i32
        ensures value { result ≡ leg_price side (leg_held self.now) }
        ensures low { negsuc 249999 ≤ℤ result }
        ensures high { result ≤ℤ pos 250000 }
    {
        let worth = self.worth(side) as i32;
        match self.side {
            Side::Buy => worth,
            Side::Sell => -worth,
        }
    }

    // How many implied orders the leg has contracts for.
    pub(crate) fn size(&self, side: Side) -> u32
        ensures value { result ≡ leg_size side (leg_held self.now) }
        ensures bound { result ≤ 1000000 }
    {
        self.used(side).total() / self.ratio
    }

    // Takes the contracts of n implied orders. By hand, here and in `replace`: a method that lends out a side by its edge
    // is no plainer than two arms.
    pub(crate) fn take(&mut self, side: Side, n: u32)
        requires { n ≤ leg_size side (leg_held self.old) }
        ensures { leg_held self.new ≡ taken_leg side n (leg_held self.old) }
    {
        let amount = n * self.ratio;
        match self.edge(side) {
            Edge::Bid => self.bid.take(amount),
            Edge::Offer => self.offer.take(amount),
        }
    }

    // Replaces one side.
    pub(crate) fn replace(&mut self, edge: Edge, new: LegSide)
        ensures { leg_held self.new ≡ quoted_leg edge (side_held new) (leg_held self.old) }
    {
        match edge {
            Edge::Bid => self.bid = new,
            Edge::Offer => self.offer = new,
        }
    }
}
