// What a depth lists.
ghost use Rattle.std.specs.Prelude.{ℕ, ◌≤◌, ℤ, ◌≤ℤ◌};
ghost use Rattle.market.specs.Limits.{lowest_price, highest_price, most_size};

use super::names::{Class, Side};

pub mod ops;

// Interest at a price, in cents, for a number of contracts.
#[derive(Clone, Copy, PartialEq, Eq)]
pub struct Entry {
    pub side: Side,
    pub price: i32,
    pub size: u32,
    pub class: Class,
    ghost low: { lowest_price ≤ℤ price },
    ghost high: { price ≤ℤ highest_price },
    ghost few: { size ≤ most_size },
}
