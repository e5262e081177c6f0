// The order and the line of fields within their limits.
ghost use Rattle.std.specs.Prelude.{◌≡◌, true};
ghost use Rattle.market.specs.declared.fill.Party.TheVariants.{Response};
ghost use Rattle.market.specs.Fields.{nat_of};
ghost use Rattle.auction.specs.Limits.{order_ok, line_ok};
ghost use Rattle.house.specs.Making.{order_of, line_of};
ghost use Rattle.house.specs.Fields.{enter_ok, response_ok, seat_ok, entered_order, seat_party, response_line};

use super::entering::Entering;
use super::responding::Responding;
use auction::line::Line;
use auction::order::Order;
use market::fill::Party;
use market::names::{Class, Kind, Mechanism, Side};

fn order_of(mechanism: Mechanism, side: Side, size: i64, price: i64, reserve: i64) -> Order
    requires { order_ok mechanism size price reserve ≡ true }
    ensures { result ≡ order_of mechanism side size price reserve }
{
    match Order::new(mechanism, side, size, price, reserve) {
        Ok(order) => order,
        Err(_) => unreachable(),
    }
}

fn line_of(party: Party, price: i64, size: i64, class: Class) -> Line
    requires { line_ok price size ≡ true }
    ensures { result ≡ line_of party price size class }
{
    match Line::new(party, price, size, class) {
        Ok(line) => line,
        Err(_) => unreachable(),
    }
}

// The member's slot of two numbers.
pub(crate) fn seat_party(member: i64, slot: i64) -> Party
    requires { seat_ok member slot ≡ true }
    ensures { result ≡ seat_party member slot }
{
    Party::Response {
        member: member as u8,
        slot: slot as u8,
    }
}

// The order that an enter brings.
pub(crate) fn entered_order(kind: Kind, e: &Entering) -> Order
    requires { enter_ok kind e.now ≡ true }
    ensures { result ≡ entered_order e.now }
{
    order_of(e.mechanism, e.side, e.size, e.price, e.reserve)
}

// The line that a response brings.
#[tactic(auto, using(crate::proofs::Made::brings_seat))]
pub(crate) fn response_line(kind: Kind, r: &Responding) -> Line
    requires { response_ok kind r.now ≡ true }
    ensures { result ≡ response_line r.now }
{
    line_of(seat_party(r.member, r.slot), r.price, r.size, r.class)
}
