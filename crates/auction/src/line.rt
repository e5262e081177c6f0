// Interest against an order.
ghost use Rattle.std.specs.Prelude.{◌≤◌, ℤ, ◌≤ℤ◌};
ghost use Rattle.market.specs.Limits.{lowest_price, highest_price, most_size};

use market::fill::Party;
use market::names::Class;

pub mod ops;

// One who stands against an order: the price in cents, and the contracts that stand.
#[derive(Clone, Copy, PartialEq, Eq)]
pub struct Line {
    pub party: Party,
    pub price: i32,
    pub size: u32,
    pub class: Class,
    ghost some: { 1 ≤ size },
    ghost few: { size ≤ most_size },
    ghost low: { lowest_price ≤ℤ price },
    ghost high: { price ≤ℤ highest_price },
}
