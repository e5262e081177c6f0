// What a leg side holds, and what is taken from it.
ghost use Rattle.std.specs.Prelude.{◌≡◌, ℕ, ◌≤◌, ◌*◌, true, false, ◌&&◌, IfOk, IfErr, length, sum, slice_index};
ghost use Rattle.legs.specs.Limits.{highest_quote, most_quotes, most_quoted};
ghost use Rattle.legs.specs.Model.{taken_side, bare, less};
ghost use Rattle.legs.specs.Sides.{quotes_of, side_held};
ghost use Rattle.legs.specs.Quotes.{sizes, places};
ghost use Rattle.legs.specs.Fields.{price_ok, sizes_ok};
ghost use Rattle.legs.specs.Quoting.{quoted_side};

use super::super::fields::side_ok;
use super::super::quote::Quote;
use super::{LegSide, MOST_QUOTES};
use market::refusal::Refusal;
use share::share_out;

// Lowers each quote by its number.
fn lower(quotes: &mut [Quote], by: &[u32])
    requires long { length by.now ≡ length quotes.old }
    requires within { (i : ℕ) → slice_index by.now i ≤ slice_index (sizes quotes.old) i }
    ensures sizes { sizes quotes.new ≡ less (sizes quotes.old) by.now }
    ensures places { places quotes.new ≡ places quotes.old }
{
    // By index: what is written through the `iter_mut` of a `zip` is not known afterwards.
    for (i, n) in by.iter().enumerate() {
        quotes[i].size -= *n;
    }
}

impl LegSide {
    // At first the price is 1, and there are no quotes.
    pub(crate) fn new() -> LegSide
        ensures { side_held result ≡ bare }
    {
        LegSide {
            price: 1,
            quotes: [Quote::default(); MOST_QUOTES],
            count: 0,
        }
    }

    // At a price, with a quote of each size; refused where one of them is outside its limits.
    pub(crate) fn quoted(price: i64, sizes: &[i64]) -> Result<LegSide, Refusal>
        ensures ok { IfOk result (λ s. ((price_ok price && sizes_ok sizes.now) ≡ true) × (side_held s ≡ quoted_side price sizes.now)) }
        ensures err { IfErr result (λ e. ((price_ok price && sizes_ok sizes.now) ≡ false) × (e ≡ Refusal.OutOfLimits)) }
    {
        if !side_ok(price, sizes) {
            return Err(Refusal::OutOfLimits);
        }
        // By place: what is written through the `iter_mut` of a `zip` is not known afterwards. And by hand: `try_from` tests
        // the types' limits, which are wider than these.
        let mut quotes = [Quote::default(); MOST_QUOTES];
        for (place, size) in sizes.iter().enumerate() {
            quotes[place] = Quote {
                place: place as u32,
                size: *size as u32,
            };
        }
        Ok(LegSide {
            price: price as u32,
            quotes,
            count: sizes.len(),
        })
    }

    // Its quotes.
    fn quotes(&self) -> &[Quote]
        ensures all { result.now ≡ quotes_of self.now }
        ensures few { length result.now ≤ most_quotes }
    {
        &self.quotes[..self.count]
    }

    pub(crate) fn price(&self) -> u32
        ensures value { result ≡ (side_held self.now).price }
        ensures bound { result ≤ highest_quote }
    {
        self.price
    }

    // Contracts in all.
    pub(crate) fn total(&self) -> u32
        ensures value { result ≡ sum (side_held self.now).quotes }
        ensures bound { result ≤ most_quotes * most_quoted }
    {
        self.quotes().iter().map(|quote| quote.size).sum()
    }

    // Takes an amount by the share-out.
    pub(crate) fn take(&mut self, amount: u32)
        requires { amount ≤ sum (side_held self.old).quotes }
        ensures { side_held self.new ≡ taken_side amount (side_held self.old) }
    {
        // A table on the stack, lent to the share-out, so that nothing is allocated.
        let mut out = [0u32; MOST_QUOTES];
        let count = self.count;
        let parts = &mut out[0..count];
        share_out(amount, self.quotes(), parts).unwrap();
        // `0..count`, since a field that is lent by `..count` is not covered.
        lower(&mut self.quotes[0..count], parts);
    }
}
