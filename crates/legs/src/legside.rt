// One side of a leg, its bid or its offer.
ghost use Rattle.std.specs.Prelude.{◌≡◌, ◌≤◌, length, take};
ghost use Rattle.std.specs.List.{range_with_len};
ghost use Rattle.legs.specs.Limits.{highest_quote, most_quotes};
ghost use Rattle.legs.specs.Quotes.{places};

use super::quote::Quote;

pub mod ops;

// The most quotes of a side.
pub const MOST_QUOTES: usize = 8;

// The bid or the offer of a leg: a price, and quotes in line. What lies past the count is not used. By hand: an `ArrayVec`
// of the quotes could not be copied.
#[derive(Clone, Copy)]
pub struct LegSide {
    price: u32,
    quotes: [Quote; MOST_QUOTES],
    count: usize,
    ghost low: { 1 ≤ price },
    ghost high: { price ≤ highest_quote },
    ghost whole: { length quotes ≡ most_quotes },
    ghost few: { count ≤ most_quotes },
    ghost line: { places (take count quotes) ≡ range_with_len 0 count },
}
