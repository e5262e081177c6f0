// Whether the fields of a call are within their limits.
ghost use Rattle.std.specs.Prelude.{◌≡◌, ◌≤◌, ◌&&◌, pos, if◌then◌else◌};
ghost use Rattle.market.specs.Fields.{nat_of};
ghost use Rattle.auction.specs.Limits.{is_facilitation, most_reserve};
ghost use Rattle.house.specs.Fields.{lowest_in, is_block, offer_ok, moment_ok, trades, share_ok, times_ok, enter_ok, seat_ok, response_ok, least_size, too_small};

use super::entering::Entering;
use super::responding::Responding;
use auction::limits::{MOST_MEMBERS, MOST_RESERVE, MOST_SLOTS};
use auction::order::Order;
use market::fields::in_range;
use market::limits::{HIGHEST_PRICE, LOWEST_PRICE, MOST_SIZE};
use market::names::{Kind, Mechanism};

// The latest moment of an enter, and of any other call.
const LAST_ENTER: i64 = 1_000_000_000_000;

const LAST_MOMENT: i64 = 1_000_000_001_000;

// The shortest and the longest response time.
const SHORTEST: i64 = 100;

const LONGEST: i64 = 1_000;

fn lowest_in(kind: Kind) -> i64
    ensures { result ≡ lowest_in kind }
{
    match kind {
        Kind::Series => 1,
        Kind::Net => LOWEST_PRICE as i64,
    }
}

// Whether a price and a size are within their limits.
fn offer_ok(kind: Kind, price: i64, size: i64) -> bool
    ensures { result ≡ offer_ok kind price size }
{
    in_range(price, lowest_in(kind), HIGHEST_PRICE as i64) && in_range(size, 1, MOST_SIZE as i64)
}

pub(crate) fn moment_ok(at: i64) -> bool
    ensures { result ≡ moment_ok at }
{
    at <= LAST_MOMENT
}

pub(crate) fn is_block(mechanism: Mechanism) -> bool
    ensures { result ≡ is_block mechanism }
{
    mechanism == Mechanism::Block
}

// Whether a mechanism is for this kind of market: a net has no blocks.
fn trades(kind: Kind, mechanism: Mechanism) -> bool
    ensures { result ≡ trades kind mechanism }
{
    kind == Kind::Series || mechanism != Mechanism::Block
}

// The most percent that can be reserved: none outside facilitation.
fn most_reserve(mechanism: Mechanism) -> i64
    ensures { result ≡ pos (if is_facilitation mechanism then most_reserve else 0) }
{
    if mechanism == Mechanism::Facilitation {
        MOST_RESERVE as i64
    } else {
        0
    }
}

fn share_ok(mechanism: Mechanism, reserve: i64) -> bool
    ensures { result ≡ share_ok mechanism reserve }
{
    in_range(reserve, 0, most_reserve(mechanism))
}

fn times_ok(time: i64, at: i64) -> bool
    ensures { result ≡ times_ok time at }
{
    in_range(time, SHORTEST, LONGEST) && at <= LAST_ENTER
}

// What an enter brings for itself: its mechanism and its reserve.
fn terms_ok(kind: Kind, e: &Entering) -> bool
    ensures { result ≡ trades kind e.now.mechanism && share_ok e.now.mechanism e.now.reserve }
{
    trades(kind, e.mechanism) && share_ok(e.mechanism, e.reserve)
}

// Whether the fields of an enter are within their limits.
pub(crate) fn enter_ok(kind: Kind, e: &Entering) -> bool
    ensures { result ≡ enter_ok kind e.now }
{
    terms_ok(kind, e) && (offer_ok(kind, e.price, e.size) && times_ok(e.time, e.at))
}

pub(crate) fn seat_ok(member: i64, slot: i64) -> bool
    ensures { result ≡ seat_ok member slot }
{
    in_range(member, 1, MOST_MEMBERS as i64) && in_range(slot, 1, MOST_SLOTS as i64)
}

// What a response brings for itself: its place, price and size.
fn response_fits(kind: Kind, r: &Responding) -> bool
    ensures { result ≡ seat_ok r.now.member r.now.slot && offer_ok kind r.now.price r.now.size }
{
    seat_ok(r.member, r.slot) && offer_ok(kind, r.price, r.size)
}

// Whether the fields of a response are within their limits.
pub(crate) fn response_ok(kind: Kind, r: &Responding) -> bool
    ensures { result ≡ response_ok kind r.now }
{
    response_fits(kind, r) && moment_ok(r.at)
}

// Whether those of a delete are.
pub(crate) fn delete_ok(member: i64, slot: i64, at: i64) -> bool
    ensures { result ≡ seat_ok member slot && moment_ok at }
{
    seat_ok(member, slot) && moment_ok(at)
}

// The fewest contracts of an order.
fn least_size(mechanism: Mechanism) -> u32
    ensures { result ≡ least_size mechanism }
{
    match mechanism {
        Mechanism::Block | Mechanism::Facilitation => 50,
        Mechanism::Solicited => 500,
    }
}

// Whether an order, times the smallest ratio of the legs, is below the least size.
pub(crate) fn too_small(ratio: u32, order: &Order) -> bool
    requires { ratio ≤ 10 }
    ensures { result ≡ too_small ratio order.now }
{
    order.size * ratio < least_size(order.mechanism)
}
