// An auction of a series, call by call.
use crate::halt_or_keep;
use crate::limits::{entering, halted, number, offer, responding};
use house::entering::Entering;
use house::state::House;
use house::trades::Trades;
use market::names::Mechanism;
use pools::empty::Empty;
use std::test::Fail;

#[test]
fn one_auction(rt: HostRuntime) -> Result<(), Fail> {
    let mut house = House::new(7, Trades::Series).expect(&rt, "a house");
    assert_eq!(rt; number(house.respond(responding(1, 1, 100, 5, 0))), 3);
    let fac = entering(Mechanism::Facilitation, 50, 100, 0);
    let Ok(ticket) = house.enter(fac, &Empty, &Empty) else {
        return Err(Fail::new("the order is refused"));
    };
    assert_eq!(rt;
        (house.started(), house.entered(), house.open()),
        (1, 50, 50)
    );
    assert_eq!(rt; number(house.respond(responding(1, 1, 100, 5, 10))), 0);
    assert_eq!(rt; number(house.respond(responding(1, 1, 101, 6, 10))), 12);
    assert_eq!(rt; number(house.amend(responding(1, 2, 101, 6, 10))), 13);
    assert_eq!(rt; number(house.amend(responding(1, 1, 101, 6, 10))), 0);
    assert_eq!(rt; offer(&house, 1, 1), (101, 6));
    assert_eq!(rt; number(house.respond(responding(2, 4, 99, 6, 11))), 11);
    assert_eq!(rt; number(house.respond(responding(2, 4, 100, 6, 9))), 1);
    assert_eq!(rt; number(house.delete(2, 4, 12)), 13);
    assert_eq!(rt; number(house.respond(responding(2, 4, 100, 6, 12))), 0);
    assert_eq!(rt; number(house.delete(2, 4, 12)), 0);
    assert_eq!(rt; offer(&house, 2, 4), (0, 0));
    // the exposure ends at 100
    assert_eq!(rt; number(house.respond(responding(2, 4, 100, 6, 99))), 0);
    assert_eq!(rt; number(house.respond(responding(3, 1, 100, 6, 100))), 4);
    assert!(rt; house.ticketless(98).number() == 1 && house.ticketless(99).number() == 3);
    // a second order waits
    match house.enter(Entering { at: 99, ..fac }, &Empty, &Empty) {
        Ok(second) => halted(&rt, &mut house, second, 99),
        Err(refusal) => assert_eq!(rt; refusal.number(), 2),
    }
    // a halt before the last moment, and one at it
    match halt_or_keep(&mut house, ticket, 98) {
        Some(ticket) => halted(&rt, &mut house, ticket, 99),
        None => return Err(Fail::new("a halt before the last moment")),
    }
    assert_eq!(rt;
        (house.open(), house.filled(), house.cancelled()),
        (0, 0, 50)
    );
    assert_eq!(rt; offer(&house, 1, 1), (101, 6));
    assert_eq!(rt; house.last(), 99);
    let block = entering(Mechanism::Block, 50, 100, 99);
    let Ok(ticket) = house.enter(block, &Empty, &Empty) else {
        return Err(Fail::new("the block is refused"));
    };
    assert_eq!(rt; offer(&house, 1, 1), (0, 0));
    halted(&rt, &mut house, ticket, 99);
    assert_eq!(rt;
        (house.started(), house.entered(), house.cancelled()),
        (2, 100, 100)
    );
    Ok(())
}
