// Whether fields are within their limits.
ghost use Rattle.std.specs.Prelude.{◌≡◌, ◌&&◌};
ghost use Rattle.legs.specs.Fields.{price_ok, sizes_ok};

use super::legside::MOST_QUOTES;

// How many legs a net has at least.
pub const LEAST_LEGS: usize = 2;

// How often a leg stands in the net at most.
pub const HIGHEST_RATIO: i64 = 10;

// The highest price of a leg.
pub const HIGHEST_QUOTE: i64 = 25_000;

// The most contracts of a quote.
pub const MOST_QUOTED: i64 = 125_000;

// Whether sizes are not too many, and each is within its limits.
fn sizes_ok(sizes: &[i64]) -> bool
    ensures { result ≡ sizes_ok sizes.now }
{
    sizes.len() <= MOST_QUOTES && sizes.iter().all(|size| (1..=MOST_QUOTED).contains(size))
}

// Whether a price and sizes are within their limits.
pub(crate) fn side_ok(price: i64, sizes: &[i64]) -> bool
    ensures { result ≡ (price_ok price && sizes_ok sizes.now) }
{
    (1..=HIGHEST_QUOTE).contains(&price) && sizes_ok(sizes)
}
