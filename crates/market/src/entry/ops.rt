// Making an entry.
ghost use Rattle.std.specs.Prelude.{◌≡◌};
ghost use Rattle.market.specs.Making.{entry_ok, new_entry};

use super::super::fields::in_range;
use super::super::limits::{HIGHEST_PRICE, LOWEST_PRICE, MOST_SIZE};
use super::super::names::{Class, Side};
use super::super::refusal::Refusal;
use super::Entry;

// Whether a price and a size are within the limits.
fn entry_ok(price: i64, size: i64) -> bool
    ensures { result ≡ entry_ok price size }
{
    in_range(price, i64::from(LOWEST_PRICE), i64::from(HIGHEST_PRICE))
        && in_range(size, 0, i64::from(MOST_SIZE))
}

impl Entry {
    // The entry of these fields; refused where one is outside its limits.
    pub fn new(side: Side, price: i64, size: i64, class: Class) -> Result<Entry, Refusal>
        ensures { result ≡ new_entry side price size class }
    {
        if !entry_ok(price, size) {
            return Err(Refusal::OutOfLimits);
        }
        // By hand: `try_from` tests the types' limits, which are wider than these.
        Ok(Entry {
            side,
            price: price as i32,
            size: size as u32,
            class,
        })
    }
}
