// The away board, the empty depth, and the market of a series.
use crate::told::{buy, shows, told};
use market::depth::Depth;
use market::names::{Edge, Side};
use pools::board::AwayBoard;
use pools::empty::Empty;
use pools::sheet::SheetMarket;
use std::test::Fail;

#[test]
fn full(rt: HostRuntime) -> Result<(), Fail> {
    let mut board = AwayBoard::new(rt.alloc())?;
    assert_eq!(rt; told(board.away(Side::Sell, 0)), 6);
    assert_eq!(rt; told(board.away(Side::Sell, 1_000_001)), 6);
    // By hand: the numbers are the prices.
    for p in 1..17 {
        assert_eq!(rt; told(board.away(Side::Buy, p)), 0);
    }
    assert_eq!(rt; told(board.away(Side::Buy, 17)), 17);
    assert_eq!(rt; told(board.away(Side::Buy, 0)), 6);
    assert_eq!(rt; board.count(), 16);
    assert!(rt; shows(&board, 1, 1, 1) && shows(&board, 16, 16, 1));
    assert_eq!(rt; told(board.entry(17)), 15);
    Ok(())
}

#[test]
fn nothing(rt: HostRuntime) {
    assert_eq!(rt; Empty.count(), 0);
    assert_eq!(rt; told(Empty.entry(1)), 15);
}

#[test]
fn series(rt: HostRuntime) -> Result<(), Fail> {
    let mut market = SheetMarket::series(rt.alloc())?;
    assert_eq!(rt; told(market.quote(1, Edge::Bid, 1, &[])), 6);
    assert_eq!(rt; told(market.away(Side::Sell, 5)), 0);
    assert_eq!(rt; told(market.rest(buy(1, 0, 1))), 6);
    assert_eq!(rt; told(market.rest(buy(1, 1, 1))), 0);
    assert_eq!(rt; told(market.rest(buy(1, 1, 1))), 16);
    Ok(())
}
