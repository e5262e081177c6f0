// Making a line.
ghost use Rattle.std.specs.Prelude.{◌≡◌};
ghost use Rattle.auction.specs.Limits.{line_ok};
ghost use Rattle.auction.specs.Making.{line_told, new_line};

use super::Line;
use market::fields::in_range;
use market::fill::Party;
use market::limits::{HIGHEST_PRICE, LOWEST_PRICE, MOST_SIZE};
use market::names::Class;
use market::refusal::Refusal;

// Whether a price and a size are within the limits.
fn line_ok(price: i64, size: i64) -> bool
    ensures { result ≡ line_ok price size }
{
    in_range(price, i64::from(LOWEST_PRICE), i64::from(HIGHEST_PRICE))
        && in_range(size, 1, i64::from(MOST_SIZE))
}

impl Line {
    // The line of these fields; refused where one is outside its limits.
    pub fn new(party: Party, price: i64, size: i64, class: Class) -> Result<Line, Refusal>
        ensures { line_told result ≡ new_line party price size class }
    {
        if !line_ok(price, size) {
            return Err(Refusal::OutOfLimits);
        }
        // By hand: `try_from` tests the types' limits, which are wider than these; and `Entry::new` wants a side, and lets sizes
        // begin at 0.
        Ok(Line {
            party,
            price: price as i32,
            size: size as u32,
            class,
        })
    }
}
