// The implied orders.
ghost use Rattle.std.specs.Prelude.{◌≡◌, ◌≤◌, false, List, [], ◌∷◌, map, is_ok, ℤ, ◌≤ℤ◌};
ghost use Rattle.std.specs.List.{AllByRecursion};
ghost use Rattle.std.specs.Option.{ok_or};
ghost use Rattle.market.specs.declared.names.Side.TheVariants.{Buy, Sell};
ghost use Rattle.market.specs.Lists.{placed};
ghost use Rattle.market.specs.Limits.{lowest_price, highest_price, most_size};
ghost use Rattle.legs.specs.Model.{net_price, net_size, leg_size, taken_leg, implied, listed, taken_answer, taken_legs, taken_at};
ghost use Rattle.legs.specs.Quoting.{quote_answer, after_quote};
ghost use Rattle.legs.specs.Making.{new_answer};
ghost use Rattle.legs.specs.Legs.{leg_held};
ghost use Rattle.legs.specs.Held.{legs_held, answer_held};
ghost use Rattle.std.proofs.Common.{rules};

use super::super::fields::LEAST_LEGS;
use super::super::leg::LegQuotes;
use super::super::legside::LegSide;
use super::{LegsMarket, MOST_LEGS};
use arrayvec::ArrayVec;
use market::depth::{Depth, Pool};
use market::entry::Entry;
use market::lists::at_place;
use market::names::{Class, Edge, Leg, Side};
use market::refusal::Refusal;

// The implied buy and the implied sell.
const IMPLIED_ORDERS: usize = 2;

// The side of the implied order at a place: the buy, then the sell.
fn side_at(place: usize) -> Result<Side, Refusal>
    ensures { result ≡ ok_or (placed (Buy ∷ Sell ∷ []) place) Refusal.NotTakable }
{
    at_place(&[Side::Buy, Side::Sell], place)
}

// Takes the contracts of n implied orders from every leg.
fn take_each(legs: &mut [LegQuotes], side: Side, n: u32)
    requires { AllByRecursion (λ l. n ≤ leg_size side l) (map leg_held legs.old) }
    ensures { map leg_held legs.new ≡ map (taken_leg side n) (map leg_held legs.old) }
{
    for leg in legs.iter_mut() {
        leg.take(side, n);
    }
}

impl LegsMarket {
    // The legs of a net, each with its side and its ratio; refused where there are too few or too many, or a ratio is
    // outside its limits.
    pub fn new(parts: &[Leg]) -> Result<LegsMarket, Refusal>
        ensures { answer_held result ≡ new_answer parts.now }
    {
        if !(LEAST_LEGS..=MOST_LEGS).contains(&parts.len()) {
            return Err(Refusal::OutOfLimits);
        }
        // By hand: an iterator that stops at the first leg that is refused is no plainer than `?`.
        let mut legs = ArrayVec::new();
        for part in parts {
            let leg = LegQuotes::new(*part)?;
            legs.push(leg);
        }
        Ok(LegsMarket { legs })
    }

    // The price of an implied order.
    fn price(&self, side: Side) -> i32
        ensures value { result ≡ net_price side (legs_held self.now) }
        ensures low { lowest_price ≤ℤ result }
        ensures high { result ≤ℤ highest_price }
    {
        self.legs.iter().map(|leg| leg.price(side)).sum()
    }

    // How many implied orders every leg has contracts for.
    fn size(&self, side: Side) -> u32
        ensures value { result ≡ net_size side (legs_held self.now) }
        ensures few { result ≤ most_size }
    {
        self.legs
            .iter()
            .map(|leg| leg.size(side))
            .min()
            .unwrap_or(0)
    }

    // The implied order of a side.
    pub fn implied(&self, side: Side) -> Entry
        ensures order { result ≡ implied side (legs_held self.now) }
        ensures price { result.price ≡ net_price side (legs_held self.now) }
        ensures size { result.size ≡ net_size side (legs_held self.now) }
    {
        Entry {
            side,
            price: self.price(side),
            size: self.size(side),
            class: Class::Other,
        }
    }

    // Replaces one side of a leg, which is counted from 1.
    pub fn quote(&mut self, leg: i64, edge: Edge, price: i64, sizes: &[i64]) -> Result<(), Refusal>
        ensures answer { result ≡ quote_answer (legs_held self.old) leg price sizes.now }
        ensures after { legs_held self.new ≡ after_quote (legs_held self.old) leg edge price sizes.now }
    {
        if !(1..=self.legs.len() as i64).contains(&leg) {
            return Err(Refusal::OutOfLimits);
        }
        let side = LegSide::quoted(price, sizes)?;
        // By hand: `try_from` tests the types' limits, which are wider than those just tested.
        let i = leg as usize - 1;
        self.legs[i].replace(edge, side);
        Ok(())
    }

    // Takes n implied orders of a side, where every leg has the contracts.
    fn take_implied(&mut self, side: Side, n: u32) -> Result<(), Refusal>
        ensures answer { result ≡ taken_answer side n (legs_held self.old) }
        ensures after { legs_held self.new ≡ taken_legs side n (legs_held self.old) }
        ensures same { is_ok result ≡ false → self.new ≡ self.old }
    {
        if !(1..=self.size(side)).contains(&n) {
            return Err(Refusal::NotTakable);
        }
        take_each(&mut self.legs, side, n);
        Ok(())
    }
}

impl Depth for LegsMarket {
    ghost entries = { λ m. listed (legs_held m) };

    ghost limits = { Prim.search rules };

    fn count(&self) -> usize {
        IMPLIED_ORDERS
    }

    // By hand, and not by `side_at`: each place names the order that it shows.
    fn entry(&self, place: usize) -> Result<Entry, Refusal> {
        match place {
            1 => Ok(self.implied(Side::Buy)),
            2 => Ok(self.implied(Side::Sell)),
            _ => Err(Refusal::NotTakable),
        }
    }
}

impl Pool for LegsMarket {
    ghost took = { λ m place n k. legs_held k ≡ taken_at place n (legs_held m) };

    fn take(&mut self, place: usize, n: u32) -> Result<(), Refusal> {
        let side = side_at(place)?;
        self.take_implied(side, n)
    }
}
