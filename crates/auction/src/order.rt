// Agency orders.
ghost use Rattle.std.specs.Prelude.{◌≡◌, ◌≤◌, true, ℤ, ◌≤ℤ◌};
ghost use Rattle.market.specs.Limits.{lowest_price, highest_price, most_size};
ghost use Rattle.auction.specs.Limits.{reserve_ok};

use market::names::{Mechanism, Side};

pub mod ops;

// An agency order in auction: its contracts, its price in cents, and the percent of it that is reserved for the
// facilitator.
#[derive(Clone, Copy, PartialEq, Eq)]
pub struct Order {
    pub mechanism: Mechanism,
    pub side: Side,
    pub size: u32,
    pub price: i32,
    pub reserve: u32,
    ghost some: { 1 ≤ size },
    ghost few: { size ≤ most_size },
    ghost low: { lowest_price ≤ℤ price },
    ghost high: { price ≤ℤ highest_price },
    ghost reserved: { reserve_ok mechanism reserve ≡ true },
}
