// Auctions through the code: the worked ones and those at the edges.
use crate::auctions::{Stand, blank, cancels, entry, executes, refused, response, stand};
use auction::line::Line;
use auction::order::Order;
use auction::settle::settle;
use market::fill::{Party, Reason};
use market::names::Class::{Customer, Other};
use market::names::Mechanism::{Block, Facilitation, Solicited};
use market::names::Side;
use std::alloc::Global;
use std::test::Fail;

const CONTRA: Party = Party::Contra;

fn book(place: usize) -> Party {
    Party::Entry(place)
}

fn member(member: u8) -> Party {
    Party::Response { member, slot: 1 }
}

#[test]
fn facilitation(rt: HostRuntime) -> Result<(), Fail> {
    // a better customer is filled at the order's price
    executes(
        rt.alloc(),
        (Facilitation, 100, 100, 40),
        &[entry(1, 101, 10, Customer), response(1, 1, 100, 60, Other)],
        &[(book(1), 100, 10), (member(1), 100, 50), (CONTRA, 100, 40)],
    )?;
    // others share what the reserve leaves, the two odd contracts go to the first two
    executes(
        rt.alloc(),
        (Facilitation, 50, 100, 40),
        &[
            response(1, 1, 100, 10, Other),
            response(2, 1, 100, 20, Other),
            response(3, 1, 100, 31, Other),
        ],
        &[
            (member(1), 100, 5),
            (member(2), 100, 10),
            (member(3), 100, 15),
            (CONTRA, 100, 20),
        ],
    )?;
    // nobody stands
    executes(
        rt.alloc(),
        (Facilitation, 100, 100, 40),
        &[],
        &[(CONTRA, 100, 100)],
    )?;
    // better levels first, the customer among them at the order's price, worse ones not at all
    executes(
        rt.alloc(),
        (Facilitation, 100, 100, 40),
        &[
            entry(1, 103, 20, Other),
            entry(2, 102, 5, Customer),
            entry(3, 99, 50, Customer),
            response(1, 1, 101, 10, Other),
            response(2, 1, 100, 30, Other),
        ],
        &[
            (book(1), 103, 20),
            (book(2), 100, 5),
            (member(1), 101, 10),
            (member(2), 100, 25),
            (CONTRA, 100, 40),
        ],
    )?;
    // better lines fill it: a customer at its own price
    executes(
        rt.alloc(),
        (Facilitation, 50, 100, 40),
        &[
            entry(1, 102, 30, Other),
            entry(2, 101, 30, Customer),
            entry(3, 101, 30, Other),
        ],
        &[(book(1), 102, 30), (book(2), 101, 20)],
    )
}

#[test]
fn counted(rt: HostRuntime) -> Result<(), Fail> {
    // a response counts at most the order's size
    executes(
        rt.alloc(),
        (Facilitation, 50, 100, 0),
        &[
            response(1, 1, 100, 1000, Other),
            response(2, 1, 100, 50, Other),
        ],
        &[(member(1), 100, 25), (member(2), 100, 25)],
    )?;
    // an entry of the pool counts in full: 1,000 and 50 share 50 as 48 and 2
    executes(
        rt.alloc(),
        (Facilitation, 50, 100, 0),
        &[entry(1, 100, 1000, Other), response(2, 1, 100, 50, Other)],
        &[(book(1), 100, 48), (member(2), 100, 2)],
    )?;
    // a customer that wants more than the order takes all of it
    executes(
        rt.alloc(),
        (Facilitation, 50, 100, 40),
        &[
            response(1, 1, 100, 1000, Customer),
            response(2, 1, 100, 50, Other),
        ],
        &[(member(1), 100, 50)],
    )?;
    // 40 percent of 101 is 41, rounded up
    executes(
        rt.alloc(),
        (Facilitation, 101, 100, 40),
        &[response(1, 1, 100, 101, Other)],
        &[(member(1), 100, 60), (CONTRA, 100, 41)],
    )
}

#[test]
fn solicited(rt: HostRuntime) -> Result<(), Fail> {
    cancels(
        rt.alloc(),
        (Solicited, 500, 100, 0),
        &[entry(1, 100, 1, Customer)],
        Reason::CustomerStands,
    )?;
    executes(
        rt.alloc(),
        (Solicited, 500, 100, 0),
        &[entry(1, 100, 1, Customer), response(1, 1, 100, 499, Other)],
        &[(book(1), 100, 1), (member(1), 100, 499)],
    )?;
    cancels(
        rt.alloc(),
        (Solicited, 500, 100, 0),
        &[entry(1, 101, 1, Other)],
        Reason::BetterStands,
    )?;
    executes(
        rt.alloc(),
        (Solicited, 500, 100, 0),
        &[response(1, 1, 101, 1, Other)],
        &[(CONTRA, 100, 500)],
    )?;
    // better lines fill it, each at its own price
    executes(
        rt.alloc(),
        (Solicited, 500, 100, 0),
        &[
            response(1, 1, 101, 300, Other),
            response(2, 1, 102, 250, Customer),
        ],
        &[(member(1), 101, 250), (member(2), 102, 250)],
    )?;
    // others at the order's price, and a customer at a worse one, leave it to the contra
    executes(
        rt.alloc(),
        (Solicited, 500, 100, 0),
        &[entry(1, 100, 600, Other), entry(2, 99, 1, Customer)],
        &[(CONTRA, 100, 500)],
    )
}

#[test]
fn block(rt: HostRuntime) -> Result<(), Fail> {
    executes(
        rt.alloc(),
        (Block, 50, 95, 0),
        &[
            entry(1, 100, 30, Other),
            entry(2, 98, 10, Other),
            entry(3, 97, 20, Other),
            entry(4, 95, 40, Other),
        ],
        &[(book(1), 97, 30), (book(2), 97, 10), (book(3), 97, 10)],
    )?;
    // less interest than the order
    executes(
        rt.alloc(),
        (Block, 50, 95, 0),
        &[entry(1, 96, 10, Other), response(1, 1, 94, 90, Customer)],
        &[(book(1), 96, 10)],
    )?;
    // customers at one price in line order, before others
    executes(
        rt.alloc(),
        (Block, 30, 100, 0),
        &[
            entry(1, 100, 20, Other),
            entry(2, 100, 20, Customer),
            response(1, 1, 100, 20, Customer),
        ],
        &[(book(2), 100, 20), (member(1), 100, 10)],
    )?;
    // others share in proportion, odd contracts from the front
    executes(
        rt.alloc(),
        (Block, 10, 100, 0),
        &[
            entry(1, 100, 5, Other),
            entry(2, 100, 5, Other),
            response(1, 1, 100, 5, Other),
        ],
        &[(book(1), 100, 4), (book(2), 100, 3), (member(1), 100, 3)],
    )?;
    cancels(
        rt.alloc(),
        (Block, 50, 95, 0),
        &[entry(1, 94, 10, Customer)],
        Reason::NoInterest,
    )?;
    cancels(rt.alloc(), (Block, 50, 95, 0), &[], Reason::NoInterest)
}

#[test]
fn line_order(rt: HostRuntime) -> Result<(), Fail> {
    let one = entry(1, 100, 1, Other);
    let first = response(1, 1, 100, 1, Other);
    assert_eq!(rt; refused(rt.alloc(), &[one, first], 129)?, (0, false));
    assert_eq!(rt; refused(rt.alloc(), &[one, first], 128)?, (14, true));
    assert_eq!(rt; refused(rt.alloc(), &[first, one], 128)?, (6, true));
    assert_eq!(rt; refused(rt.alloc(), &[one, one], 129)?, (6, true));
    assert_eq!(rt; refused(rt.alloc(), &[first, first], 129)?, (6, true));
    assert_eq!(rt;
        refused(rt.alloc(), &[entry(0, 100, 1, Other)], 129)?,
        (6, true)
    );
    assert_eq!(rt;
        refused(rt.alloc(), &[entry(65_535, 100, 1, Other)], 129)?,
        (0, false)
    );
    assert_eq!(rt;
        refused(rt.alloc(), &[entry(65_536, 100, 1, Other)], 129)?,
        (6, true)
    );
    assert_eq!(rt;
        refused(rt.alloc(), &[response(0, 1, 100, 1, Other)], 129)?,
        (6, true)
    );
    assert_eq!(rt;
        refused(rt.alloc(), &[response(16, 4, 100, 1, Other), first], 129)?,
        (0, false)
    );
    assert_eq!(rt;
        refused(rt.alloc(), &[response(17, 1, 100, 1, Other)], 129)?,
        (6, true)
    );
    assert_eq!(rt;
        refused(rt.alloc(), &[response(1, 0, 100, 1, Other)], 129)?,
        (6, true)
    );
    assert_eq!(rt;
        refused(rt.alloc(), &[response(1, 5, 100, 1, Other)], 129)?,
        (6, true)
    );
    assert_eq!(rt;
        refused(rt.alloc(), &[(CONTRA, 100, 1, Other)], 129)?,
        (6, true)
    );
    Ok(())
}

// Entries of the pool, and every slot of every member, one contract each.
fn crowd(heap: Global, entries: usize) -> Result<Vec<Stand>, Fail> {
    let mut lines = Vec::new(heap);
    for place in 1..=entries {
        lines.push(entry(place, 100, 1, Other))?;
    }
    for member in 1..=16u8 {
        for slot in 1..=4u8 {
            lines.push(response(member, slot, 100, 1, Other))?;
        }
    }
    Ok(lines)
}

#[test]
fn many_lines(rt: HostRuntime) -> Result<(), Fail> {
    let lines = stand(rt.alloc(), Side::Sell, crowd(rt.alloc(), 64)?.as_slice())?;
    assert_eq!(rt; lines.len(), 128);
    let Ok(order) = Order::new(Facilitation, Side::Sell, 130, 100, 0) else {
        return Err(Fail::new("the order is refused"));
    };
    let mut blotter = blank();
    let Ok(Ok(executed)) = settle(&order, lines.as_slice(), &mut blotter) else {
        return Err(Fail::new("it executes"));
    };
    assert_eq!(rt; (executed.lines, executed.total), (129, 130));
    for (i, fill) in blotter.iter().enumerate() {
        assert_eq!(rt; fill.contracts, if i < 128 { 1 } else { 2 });
    }
    assert_eq!(rt;
        refused(rt.alloc(), crowd(rt.alloc(), 65)?.as_slice(), 200)?,
        (6, true)
    );
    Ok(())
}

// 0, or 6 where a field is outside its limits.
fn made<T: Drop>(r: Result<T, market::refusal::Refusal>) -> u8 {
    match r {
        Ok(_) => 0,
        Err(refusal) => refusal.number(),
    }
}

#[test]
fn limits(rt: HostRuntime) {
    for (mechanism, size, price, reserve, number) in [
        (Facilitation, 1, 1_000_000, 40, 0),
        (Facilitation, 1_000_000, -1_000_000, 0, 0),
        (Facilitation, 0, 1, 0, 6),
        (Facilitation, 1_000_001, 1, 0, 6),
        (Facilitation, 1, 1_000_001, 0, 6),
        (Facilitation, 1, -1_000_001, 0, 6),
        (Facilitation, 1, 1, 41, 6),
        (Facilitation, 1, 1, -1, 6),
        (Solicited, 1, 1, 1, 6),
        (Block, 1, 1, 1, 6),
        (Block, 1, 1, 0, 0),
    ] {
        assert_eq!(rt;
            made(Order::new(mechanism, Side::Buy, size, price, reserve)),
            number
        );
    }
    for (price, size, number) in [
        (1_000_000, 1, 0),
        (-1_000_000, 1_000_000, 0),
        (0, 0, 6),
        (0, 1_000_001, 6),
        (0, -1, 6),
        (1_000_001, 1, 6),
        (-1_000_001, 1, 6),
    ] {
        assert_eq!(rt; made(Line::new(CONTRA, price, size, Other)), number);
    }
}
