// Making an order.
ghost use Rattle.std.specs.Prelude.{◌≡◌, pos, if◌then◌else◌};
ghost use Rattle.auction.specs.Limits.{is_facilitation, most_reserve, order_ok};
ghost use Rattle.auction.specs.Making.{order_told, new_order};

use super::super::limits::MOST_RESERVE;
use super::Order;
use market::fields::in_range;
use market::limits::{HIGHEST_PRICE, LOWEST_PRICE, MOST_SIZE};
use market::names::{Mechanism, Side};
use market::refusal::Refusal;

// The most percent that can be reserved: none outside facilitation.
fn most_reserve(mechanism: Mechanism) -> i64
    ensures { result ≡ pos (if is_facilitation mechanism then most_reserve else 0) }
{
    match mechanism {
        Mechanism::Facilitation => i64::from(MOST_RESERVE),
        Mechanism::Block | Mechanism::Solicited => 0,
    }
}

// Whether a size, a price and a reserve are within the limits of a mechanism.
fn order_ok(mechanism: Mechanism, size: i64, price: i64, reserve: i64) -> bool
    ensures { result ≡ order_ok mechanism size price reserve }
{
    in_range(size, 1, i64::from(MOST_SIZE))
        && in_range(price, i64::from(LOWEST_PRICE), i64::from(HIGHEST_PRICE))
        && in_range(reserve, 0, most_reserve(mechanism))
}

impl Order {
    // The order of these fields; refused where one is outside its limits.
    pub fn new(
        mechanism: Mechanism,
        side: Side,
        size: i64,
        price: i64,
        reserve: i64,
    ) -> Result<Order, Refusal>
        ensures { order_told result ≡ new_order mechanism side size price reserve }
    {
        if !order_ok(mechanism, size, price, reserve) {
            return Err(Refusal::OutOfLimits);
        }
        // By hand: `try_from` tests the types' limits, which are wider than these.
        Ok(Order {
            mechanism,
            side,
            size: size as u32,
            price: price as i32,
            reserve: reserve as u32,
        })
    }
}
