// The resting book of a series or a net.
ghost use Rattle.std.specs.Prelude.{ℕ, ◌≤◌, vec_len, vec_capacity};
ghost use Rattle.pools.specs.Limits.{most_orders};

use market::entry::Entry;
use market::names::Kind;

pub mod ops;
pub mod rest;

// An entry with the number that it rests under.
#[derive(Clone, Copy)]
pub struct Order {
    pub number: u16,
    pub entry: Entry,
}

// Orders as they arrived. The memory for all of them is had from the start, so that resting wants none.
#[derive(Drop)]
pub struct Book {
    kind: Kind,
    orders: Vec<Order>,
    ghost room: { most_orders ≤ vec_capacity orders },
    ghost few: { vec_len orders ≤ most_orders },
}
