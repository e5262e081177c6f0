// Lines as they are counted.
ghost use Rattle.std.specs.Prelude.{◌≡◌, ◌≤◌, length, ◌≤ℤ◌};
ghost use Rattle.market.specs.Limits.{lowest_price};
ghost use Rattle.deal.specs.Answers.{most_lines};
ghost use Rattle.auction.specs.Gains.{gain};
ghost use Rattle.auction.specs.Lines.{reserved_of, counted, interest_of, interest};

use super::line::Line;
use super::order::Order;
use arrayvec::ArrayVec;
use deal::terms::MOST_LINES;
use filling::interest::Interest;
use market::fill::Party;
use market::names::{Class, Side};

// What an order on a side gains at a price; and the price at which it gains so much.
pub(crate) fn gain_at(side: Side, price: i32) -> i32
    requires { lowest_price ≤ℤ price }
    ensures { result ≡ gain side price }
{
    match side {
        Side::Sell => price,
        Side::Buy => -price,
    }
}

// The contracts of a line as counted: a response counts at most the order's size.
fn counted_size(order: &Order, line: &Line) -> u32
    ensures { result ≡ counted order.now line.now }
{
    match line.party {
        Party::Entry(_) => line.size,
        Party::Response { .. } | Party::Contra => line.size.min(order.size),
    }
}

// The contracts reserved for the facilitator: the reserve in percent of the order, rounded up.
pub(crate) fn reserved(order: &Order) -> u32
    ensures { result ≡ reserved_of order.now }
{
    (order.size * order.reserve).div_ceil(100)
}

// A line as it is counted.
fn interest_of(order: &Order, line: &Line) -> Interest
    ensures { result ≡ interest_of order.now line.now }
{
    Interest {
        gain: gain_at(order.side, line.price),
        size: counted_size(order, line),
        customer: line.class == Class::Customer,
        pooled: matches!(line.party, Party::Entry(_)),
    }
}

// The lines as they are counted.
pub(crate) fn counted(order: &Order, lines: &[Line]) -> ArrayVec<Interest, MOST_LINES>
    requires { length lines.now ≤ most_lines }
    ensures { result.items ≡ interest order.now lines.now }
{
    // By hand: a chain would end in `from_iter`, which can fail for want of room.
    let mut counted = ArrayVec::new();
    for line in lines {
        counted.push(interest_of(order, line));
    }
    counted
}
