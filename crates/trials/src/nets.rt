// The legs market, and the market of a net.
use crate::told::{shows, told};
use legs::pool::LegsMarket;
use market::depth::{Depth, Pool};
use market::names::Side::{Buy, Sell};
use market::names::{Class, Edge, Leg, Side};
use market::resting::Resting;
use pools::sheet::SheetMarket;
use std::test::Fail;

fn leg(side: Side, ratio: i64) -> Leg {
    Leg { side, ratio }
}

#[test]
fn making(rt: HostRuntime) {
    assert_eq!(rt; told(LegsMarket::new(&[])), 6);
    assert_eq!(rt; told(LegsMarket::new(&[leg(Buy, 1)])), 6);
    assert_eq!(rt; told(LegsMarket::new(&[leg(Buy, 1), leg(Sell, 11)])), 6);
    assert_eq!(rt; told(LegsMarket::new(&[leg(Buy, 0), leg(Sell, 1)])), 6);
    assert_eq!(rt; told(LegsMarket::new(&[leg(Buy, 1), leg(Sell, 10)])), 0);
    let four = [leg(Buy, 1), leg(Sell, 2), leg(Buy, 3), leg(Sell, 4)];
    assert_eq!(rt; told(LegsMarket::new(&four)), 0);
    let five = [
        leg(Buy, 1),
        leg(Sell, 2),
        leg(Buy, 3),
        leg(Sell, 4),
        leg(Sell, 1),
    ];
    assert_eq!(rt; told(LegsMarket::new(&five)), 6);
}

// One leg is bought, two are sold for it.
#[test]
fn two_legs(rt: HostRuntime) -> Result<(), Fail> {
    let mut legs = LegsMarket::new(&[leg(Buy, 1), leg(Sell, 2)]).expect(&rt, "refused");
    assert!(rt;
        shows(&legs, 1, -1, 0) && shows(&legs, 2, -1, 0),
        "no quotes at first"
    );
    assert_eq!(rt; told(legs.quote(1, Edge::Bid, 300, &[10, 20, 31])), 0);
    assert_eq!(rt; told(legs.quote(1, Edge::Offer, 310, &[50])), 0);
    assert_eq!(rt; told(legs.quote(2, Edge::Bid, 100, &[40])), 0);
    assert_eq!(rt; told(legs.quote(2, Edge::Offer, 105, &[100, 100])), 0);
    assert!(rt; shows(&legs, 1, 90, 61) && shows(&legs, 2, 110, 20));
    assert_eq!(rt; legs.count(), 2);
    assert_eq!(rt; told(legs.entry(3)), 15);
    assert_eq!(rt; told(legs.take(1, 62)), 15);
    assert_eq!(rt; told(legs.take(1, 0)), 15);
    assert_eq!(rt; told(legs.take(3, 1)), 15);
    assert_eq!(rt; told(legs.take(1, 30)), 0);
    assert!(rt;
        shows(&legs, 1, 90, 31) && shows(&legs, 2, 110, 20),
        "the other order stays"
    );
    assert_eq!(rt; told(legs.take(1, 1)), 0);
    assert_eq!(rt; told(legs.take(2, 20)), 0);
    assert!(rt; shows(&legs, 1, 90, 30) && shows(&legs, 2, 110, 0));
    assert_eq!(rt; told(legs.quote(2, Edge::Bid, 99, &[3])), 0);
    assert!(rt;
        shows(&legs, 1, 90, 30) && shows(&legs, 2, 112, 1),
        "one leg quoted again"
    );
    assert_eq!(rt; told(legs.quote(3, Edge::Bid, 1, &[])), 6);
    assert_eq!(rt; told(legs.quote(0, Edge::Bid, 1, &[])), 6);
    assert_eq!(rt; told(legs.quote(1, Edge::Bid, 0, &[])), 6);
    assert_eq!(rt; told(legs.quote(1, Edge::Bid, 25_001, &[])), 6);
    assert_eq!(rt; told(legs.quote(1, Edge::Bid, 1, &[0])), 6);
    assert_eq!(rt; told(legs.quote(1, Edge::Bid, 1, &[125_001])), 6);
    assert_eq!(rt;
        told(legs.quote(1, Edge::Bid, 1, &[1, 1, 1, 1, 1, 1, 1, 1, 1])),
        6
    );
    assert!(rt; shows(&legs, 1, 90, 30));
    assert_eq!(rt; told(legs.quote(1, Edge::Bid, 1, &[])), 0);
    assert!(rt; shows(&legs, 1, -209, 0));
    Ok(())
}

#[test]
fn more_legs(rt: HostRuntime) -> Result<(), Fail> {
    let mut three = LegsMarket::new(&[leg(Buy, 1), leg(Sell, 3), leg(Buy, 2)]).expect(
        &rt, "refused",
    );
    assert_eq!(rt; told(three.quote(1, Edge::Bid, 100, &[5])), 0);
    assert_eq!(rt; told(three.quote(2, Edge::Offer, 50, &[20])), 0);
    assert_eq!(rt; told(three.quote(3, Edge::Bid, 40, &[4, 4])), 0);
    assert!(rt;
        shows(&three, 1, 30, 4),
        "100 - 150 + 80, for the third leg"
    );
    let mut four = LegsMarket::new(&[leg(Sell, 1), leg(Sell, 1), leg(Buy, 10), leg(Buy, 1)]).expect(
        &rt, "refused",
    );
    assert_eq!(rt; told(four.quote(1, Edge::Bid, 7, &[9])), 0);
    assert_eq!(rt; told(four.quote(2, Edge::Bid, 8, &[9])), 0);
    assert_eq!(rt; told(four.quote(3, Edge::Offer, 25_000, &[125_000])), 0);
    assert_eq!(rt; told(four.quote(4, Edge::Offer, 25_000, &[9])), 0);
    assert!(rt; shows(&four, 2, 274_985, 9), "250,000 + 25,000 - 15");
    Ok(())
}

#[test]
fn net(rt: HostRuntime) -> Result<(), Fail> {
    let legs = LegsMarket::new(&[leg(Buy, 1), leg(Sell, 1)]).expect(&rt, "refused");
    let mut market = SheetMarket::net(rt.alloc(), legs)?;
    assert_eq!(rt; told(market.away(Buy, 1)), 6);
    assert_eq!(rt; told(market.away(Buy, 0)), 6);
    assert_eq!(rt;
        told(market.rest(Resting {
            number: 1,
            side: Sell,
            price: -5,
            size: 1,
            class: Class::Customer,
        })),
        0
    );
    assert_eq!(rt; told(market.quote(2, Edge::Bid, 3, &[1])), 0);
    assert_eq!(rt; told(market.quote(3, Edge::Bid, 3, &[1])), 6);
    Ok(())
}
