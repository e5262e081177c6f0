// The price tests of an order.
ghost use Rattle.std.specs.Prelude.{◌≡◌, Bool};
ghost use Rattle.market.specs.declared.entry.Entry.{Entry};
ghost use Rattle.auction.specs.Gains.{gain, is_customer};
ghost use Rattle.auction.specs.Lines.{gain_of};
ghost use Rattle.market.specs.Lists.{entry_at};
ghost use Rattle.house.specs.Tests.{Tells, passes};
ghost use Rattle.house.specs.Fields.{beside, against, any_entry, outbids, customer_beside, gains_more, is_outbid, has_customer_beside, is_better_away, gains_less};

use super::fields::is_block;
use auction::line::Line;
use auction::order::Order;
use market::depth::Depth;
use market::entry::Entry;
use market::names::{Class, Side};

// What an order on a side gains at a price.
fn gain_at(side: Side, price: i32) -> i64
    ensures { result ≡ gain side price }
{
    match side {
        Side::Sell => i64::from(price),
        Side::Buy => -i64::from(price),
    }
}

// What an order gains at its own price.
fn gain_of(order: &Order) -> i64
    ensures { result ≡ gain_of order.now }
{
    gain_at(order.side, order.price)
}

// Whether an entry with contracts stands on a side, and on the other.
fn beside(side: Side, entry: Entry) -> bool
    ensures { result ≡ beside side entry }
{
    entry.side == side && entry.size > 0
}

fn against(side: Side, entry: Entry) -> bool
    ensures { result ≡ against side entry }
{
    entry.side != side && entry.size > 0
}

// Whether an entry on the order's side would buy for more or sell for less.
fn outbids(order: &Order, entry: Entry) -> bool
    ensures { result ≡ outbids order.now entry }
{
    beside(order.side, entry) && gain_at(order.side, entry.price) < gain_of(order)
}

// Whether it is a customer's at the order's price.
fn customer_beside(order: &Order, entry: Entry) -> bool
    ensures { result ≡ customer_beside order.now entry }
{
    beside(order.side, entry) && (entry.class == Class::Customer && entry.price == order.price)
}

// Whether it stands against the order and gains it more than its own price.
fn gains_more(order: &Order, entry: Entry) -> bool
    ensures { result ≡ gains_more order.now entry }
{
    against(order.side, entry) && gain_of(order) < gain_at(order.side, entry.price)
}

// Whether what stands at a place passes a test.
fn passes<D: Depth, F: Fn(Entry) -> bool>(depth: &D, place: usize, test: &F) -> bool
    requires { F.IsAlwaysCallable test.now }
    ensures { (p : Entry → Bool) → Tells (F.post test.now) p → result ≡ passes p (entry_at (D.entries depth.now) place) }
{
    match depth.entry(place) {
        Ok(entry) => test(entry),
        Err(_) => false,
    }
}

// Whether some entry of a depth does.
fn any_entry<D: Depth, F: Fn(Entry) -> bool>(depth: &D, test: F) -> bool
    requires { F.IsAlwaysCallable test }
    ensures { (p : Entry → Bool) → Tells (F.post test) p → result ≡ any_entry p (D.entries depth.now) }
{
    for before in 0..depth.count() {
        if passes(depth, before + 1, &test) {
            return true;
        }
    }
    false
}

// Whether an order is outbid, in the pool or away.
pub(crate) fn is_outbid<P: Depth, A: Depth>(order: &Order, pool: &P, away: &A) -> bool
    ensures { result ≡ is_outbid order.now (P.entries pool.now) (A.entries away.now) }
{
    !is_block(order.mechanism)
        && (any_entry(pool, |entry| outbids(order, entry))
            || any_entry(away, |entry| outbids(order, entry)))
}

// Whether a customer of the pool stands beside it.
pub(crate) fn has_customer_beside<P: Depth>(order: &Order, pool: &P) -> bool
    ensures { result ≡ has_customer_beside order.now (P.entries pool.now) }
{
    !is_block(order.mechanism) && any_entry(pool, |entry| customer_beside(order, entry))
}

// Whether another market has a better price for it.
pub(crate) fn is_better_away<A: Depth>(order: &Order, away: &A) -> bool
    ensures { result ≡ is_better_away order.now (A.entries away.now) }
{
    !is_block(order.mechanism) && any_entry(away, |entry| gains_more(order, entry))
}

// Whether a line gains less than the order asks; nobody does in a block.
pub(crate) fn gains_less(order: &Order, line: &Line) -> bool
    ensures { result ≡ gains_less order.now line.now }
{
    !is_block(order.mechanism) && gain_at(order.side, line.price) < gain_of(order)
}
