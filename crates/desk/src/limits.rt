// A house at the limits of its calls.
use crate::halt_or_keep;
use house::entering::Entering;
use house::responding::Responding;
use house::state::House;
use house::ticket::Ticket;
use house::trades::Trades;
use market::depth::Depth;
use market::names::{Class, Kind, Mechanism, Side};
use market::refusal::Refusal;
use market::resting::Resting;
use pools::board::AwayBoard;
use pools::book::Book;
use pools::empty::Empty;
use std::process::Abort;
use std::test::Fail;

// An order that sells at a moment, with 100 to respond in.
pub(crate) fn entering(mechanism: Mechanism, size: i64, price: i64, at: i64) -> Entering {
    Entering {
        mechanism,
        side: Side::Sell,
        size,
        price,
        reserve: 0,
        time: 100,
        at,
    }
}

pub(crate) fn responding(member: i64, slot: i64, price: i64, size: i64, at: i64) -> Responding {
    Responding {
        member,
        slot,
        price,
        size,
        class: Class::Other,
        at,
    }
}

// 0, or the number of the refusal.
pub(crate) fn number(answer: Result<(), Refusal>) -> u8 {
    match answer {
        Ok(()) => 0,
        Err(refusal) => refusal.number(),
    }
}

// Price and size of what stands in a place, or two zeros.
pub(crate) fn offer(house: &House, member: i64, slot: i64) -> (i32, u32) {
    house
        .place(member, slot)
        .map_or((0, 0), |offer| (offer.price, offer.size))
}

// Halts an auction, which has to be accepted.
pub(crate) fn halted(rt: &impl Abort, house: &mut House, ticket: Ticket, at: i64) {
    if let Some(_ticket) = halt_or_keep(house, ticket, at) {
        panic!(rt; "the halt is refused");
    }
}

// Enters an order against a pool and a depth away, and halts it at once: 0, or the number of the refusal.
fn tried<P: Depth, A: Depth>(
    rt: &impl Abort,
    house: &mut House,
    order: Entering,
    pool: &P,
    away: &A,
) -> u8 {
    match house.enter(order, pool, away) {
        Ok(ticket) => {
            halted(rt, house, ticket, order.at);
            0
        }
        Err(refusal) => refusal.number(),
    }
}

// The number of the refusal of a house, or 0.
fn made(number: i64, trades: Trades) -> u8 {
    match House::new(number, trades) {
        Ok(_) => 0,
        Err(refusal) => refusal.number(),
    }
}

#[test]
fn houses(rt: HostRuntime) {
    assert_eq!(rt; made(0, Trades::Series), 6);
    assert_eq!(rt; made(1, Trades::Series), 0);
    assert_eq!(rt; made(65_535, Trades::Net { smallest_ratio: 10 }), 0);
    assert_eq!(rt; made(65_536, Trades::Series), 6);
    assert_eq!(rt; made(7, Trades::Net { smallest_ratio: 0 }), 6);
    assert_eq!(rt; made(7, Trades::Net { smallest_ratio: 11 }), 6);
}

#[test]
fn fields_of_an_order(rt: HostRuntime) -> Result<(), Fail> {
    let mut house = House::new(7, Trades::Series).expect(&rt, "a house");
    let fac = entering(Mechanism::Facilitation, 50, 100, 0);
    let latest = 1_000_000_000_000;
    for (order, answer) in [
        (fac, 0),
        (Entering { size: 49, ..fac }, 8),
        (Entering { size: 0, ..fac }, 6),
        (
            Entering {
                size: 1_000_001,
                ..fac
            },
            6,
        ),
        (
            Entering {
                size: 1_000_000,
                ..fac
            },
            0,
        ),
        (
            Entering {
                price: 1_000_000,
                ..fac
            },
            0,
        ),
        (entering(Mechanism::Solicited, 499, 100, 0), 8),
        (entering(Mechanism::Solicited, 500, 100, 0), 0),
        (
            Entering {
                reserve: 1,
                ..entering(Mechanism::Solicited, 500, 100, 0)
            },
            6,
        ),
        (entering(Mechanism::Block, 49, 100, 0), 8),
        (entering(Mechanism::Block, 50, 100, 0), 0),
        (Entering { price: 0, ..fac }, 6),
        (Entering { price: 1, ..fac }, 0),
        (
            Entering {
                price: 1_000_001,
                ..fac
            },
            6,
        ),
        (Entering { reserve: 40, ..fac }, 0),
        (Entering { reserve: 41, ..fac }, 6),
        (Entering { reserve: -1, ..fac }, 6),
        (
            Entering {
                reserve: 1,
                ..entering(Mechanism::Block, 50, 100, 0)
            },
            6,
        ),
        (Entering { time: 99, ..fac }, 6),
        (Entering { time: 1_000, ..fac }, 0),
        (Entering { time: 1_001, ..fac }, 6),
        (Entering { at: -1, ..fac }, 1),
        (
            Entering {
                at: latest + 1,
                ..fac
            },
            6,
        ),
        (Entering { at: latest, ..fac }, 0),
        (
            Entering {
                at: latest - 1,
                ..fac
            },
            1,
        ),
    ] {
        assert_eq!(rt; tried(&rt, &mut house, order, &Empty, &Empty), answer);
    }
    Ok(())
}

#[test]
fn a_net(rt: HostRuntime) -> Result<(), Fail> {
    let mut house = House::new(7, Trades::Net { smallest_ratio: 2 }).expect(&rt, "a house");
    for (order, answer) in [
        (entering(Mechanism::Facilitation, 24, 100, 0), 8),
        (entering(Mechanism::Facilitation, 25, 100, 0), 0),
        (entering(Mechanism::Solicited, 249, 100, 0), 8),
        (entering(Mechanism::Solicited, 250, -1_000_000, 0), 0),
        (entering(Mechanism::Solicited, 250, -1_000_001, 0), 6),
        (entering(Mechanism::Block, 50, 100, 0), 6),
    ] {
        assert_eq!(rt; tried(&rt, &mut house, order, &Empty, &Empty), answer);
    }
    Ok(())
}

// A book with one entry.
fn book(rt: &HostRuntime, side: Side, price: i64, class: Class) -> Result<Book, Fail> {
    let mut book = Book::new(rt.alloc(), Kind::Series)?;
    match book.rest(Resting {
        number: 1,
        side,
        price,
        size: 1,
        class,
    }) {
        Ok(()) => Ok(book),
        Err(_) => Err(Fail::new("the order cannot rest")),
    }
}

#[test]
fn prices(rt: HostRuntime) -> Result<(), Fail> {
    let mut house = House::new(7, Trades::Series).expect(&rt, "a house");
    let fac = entering(Mechanism::Facilitation, 50, 100, 0);
    let block = entering(Mechanism::Block, 50, 100, 0);
    // a lower sell outbids it, an equal one does not; a buy is of the other side
    let lower = book(&rt, Side::Sell, 99, Class::Other)?;
    let equal = book(&rt, Side::Sell, 100, Class::Other)?;
    let buys = book(&rt, Side::Buy, 200, Class::Customer)?;
    assert_eq!(rt; tried(&rt, &mut house, fac, &lower, &Empty), 10);
    assert_eq!(rt; tried(&rt, &mut house, fac, &Empty, &lower), 10);
    assert_eq!(rt; tried(&rt, &mut house, block, &lower, &lower), 0);
    assert_eq!(rt; tried(&rt, &mut house, fac, &equal, &equal), 0);
    assert_eq!(rt; tried(&rt, &mut house, fac, &buys, &Empty), 0);
    // a customer at its price on its side
    let customer = book(&rt, Side::Sell, 100, Class::Customer)?;
    let dearer = book(&rt, Side::Sell, 101, Class::Customer)?;
    assert_eq!(rt; tried(&rt, &mut house, fac, &customer, &Empty), 10);
    assert_eq!(rt; tried(&rt, &mut house, fac, &Empty, &customer), 0);
    assert_eq!(rt; tried(&rt, &mut house, fac, &dearer, &Empty), 0);
    // a better buy away
    let mut away = AwayBoard::new(rt.alloc())?;
    assert_eq!(rt; number(away.away(Side::Buy, 100)), 0);
    assert_eq!(rt; tried(&rt, &mut house, fac, &Empty, &away), 0);
    assert_eq!(rt; number(away.away(Side::Buy, 101)), 0);
    assert_eq!(rt; tried(&rt, &mut house, fac, &Empty, &away), 10);
    // an order that buys sees it turned round
    let buying = Entering {
        side: Side::Buy,
        ..fac
    };
    assert_eq!(rt; tried(&rt, &mut house, buying, &Empty, &away), 10);
    assert_eq!(rt; tried(&rt, &mut house, buying, &equal, &Empty), 0);
    Ok(())
}

#[test]
fn fields_of_a_response(rt: HostRuntime) -> Result<(), Fail> {
    let mut house = House::new(7, Trades::Series).expect(&rt, "a house");
    let Ok(ticket) = house.enter(entering(Mechanism::Block, 50, 100, 0), &Empty, &Empty) else {
        return Err(Fail::new("the order is refused"));
    };
    for (r, answer) in [
        (responding(0, 1, 100, 1, 0), 6),
        (responding(17, 1, 100, 1, 0), 6),
        (responding(1, 0, 100, 1, 0), 6),
        (responding(1, 5, 100, 1, 0), 6),
        (responding(1, 1, 0, 1, 0), 6),
        (responding(1, 1, 1_000_001, 1, 0), 6),
        (responding(1, 1, 100, 0, 0), 6),
        (responding(1, 1, 100, 1_000_001, 0), 6),
        (responding(1, 1, 1, 1_000_000, 0), 0),
        (responding(16, 4, 1_000_000, 1, 99), 0),
        (responding(2, 1, 100, 1, 100), 4),
        (responding(2, 1, 100, 1, 98), 1),
    ] {
        assert_eq!(rt; number(house.respond(r)), answer);
    }
    assert_eq!(rt; offer(&house, 16, 4), (1_000_000, 1));
    assert_eq!(rt; offer(&house, 17, 4), (0, 0));
    assert_eq!(rt; number(house.delete(17, 1, 99)), 6);
    assert_eq!(rt; number(house.delete(16, 4, 99)), 0);
    halted(&rt, &mut house, ticket, 99);
    Ok(())
}
