// Resting an order.
ghost use Rattle.std.specs.Prelude.{◌≡◌, true, false, IfOk, IfErr, count_by};
ghost use Rattle.std.specs.List.{list_any};
ghost use Rattle.pools.specs.Books.{book_held};
ghost use Rattle.pools.specs.Resting.{live, stands_as, lowest_of, rest_ok, order_of, rest_answer, after_rest};

use super::ops::MOST_ORDERS;
use super::{Book, Order};
use market::entry::Entry;
use market::fields::in_range;
use market::limits::{HIGHEST_PRICE, LOWEST_PRICE, MOST_SIZE};
use market::names::Kind;
use market::refusal::Refusal;
use market::resting::Resting;

// The highest number of an order.
pub const HIGHEST_NUMBER: i64 = 65_535;

// The lowest price of an order.
fn lowest(kind: Kind) -> i64
    ensures { result ≡ lowest_of kind }
{
    match kind {
        Kind::Series => 1,
        Kind::Net => i64::from(LOWEST_PRICE),
    }
}

// Whether the fields of an order are within their limits.
fn rest_ok(kind: Kind, new: Resting) -> bool
    ensures { result ≡ rest_ok kind new.number new.price new.size }
{
    in_range(new.number, 1, HIGHEST_NUMBER)
        && in_range(new.price, lowest(kind), i64::from(HIGHEST_PRICE))
        && in_range(new.size, 1, i64::from(MOST_SIZE))
}

impl Order {
    // The order of these fields; refused where one is outside its limits for the kind of market.
    fn new(kind: Kind, new: Resting) -> Result<Order, Refusal>
        ensures ok { IfOk result (λ o. (rest_ok kind new.number new.price new.size ≡ true) × (o ≡ order_of new.number new.side new.price new.size new.class)) }
        ensures err { IfErr result (λ e. (rest_ok kind new.number new.price new.size ≡ false) × (e ≡ Refusal.OutOfLimits)) }
    {
        if !rest_ok(kind, new) {
            return Err(Refusal::OutOfLimits);
        }
        let entry = Entry::new(new.side, new.price, new.size, new.class).unwrap();
        // `rest_ok` has tested the number; `try_from` would test it again.
        Ok(Order {
            number: new.number as u16,
            entry,
        })
    }

    // Whether it has contracts.
    fn is_live(&self) -> bool
        ensures { result ≡ live self.now }
    {
        self.entry.size > 0
    }

    // Whether it has contracts and stands under a number.
    fn stands_as(&self, number: u16) -> bool
        ensures { result ≡ stands_as number self.now }
    {
        self.number == number && self.is_live()
    }
}

impl Book {
    // Whether an order with contracts stands under a number.
    fn stands(&self, number: u16) -> bool
        ensures { result ≡ list_any (stands_as number) (book_held self.now).orders }
    {
        self.orders.iter().any(|o| o.stands_as(number))
    }

    // How many orders have contracts.
    fn live_count(&self) -> usize
        ensures { result ≡ count_by live (book_held self.now).orders }
    {
        self.orders.iter().filter(|o| o.is_live()).count()
    }

    // Drops the emptied orders, and appends one. Refused where a field is outside its limits, an order with contracts
    // stands under the number, or as many as have room stand.
    pub fn rest(&mut self, new: Resting) -> Result<(), Refusal>
        ensures answer { result ≡ rest_answer (book_held self.old) new.number new.price new.size }
        ensures after { book_held self.new ≡ after_rest (book_held self.old) new.number new.side new.price new.size new.class }
    {
        let order = Order::new(self.kind, new)?;
        if self.stands(order.number) {
            return Err(Refusal::NumberStands);
        }
        if self.live_count() >= MOST_ORDERS {
            return Err(Refusal::NoSpace);
        }
        self.orders.retain(|o| o.is_live());
        self.orders.push_reserved(order);
        Ok(())
    }
}
