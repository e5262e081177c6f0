// The resting book, and two pools as one.
use crate::told::{buy, shows, told};
use market::depth::{Depth, Pool};
use market::names::Kind;
use pools::book::Book;
use pools::pair::Pair;
use std::test::Fail;

// Rests a buy of class other: 0, or the number of the refusal.
fn rest(book: &mut Book, number: i64, price: i64, size: i64) -> u8 {
    told(book.rest(buy(number, price, size)))
}

#[test]
fn fields(rt: HostRuntime) -> Result<(), Fail> {
    let mut book = Book::new(rt.alloc(), Kind::Series)?;
    assert_eq!(rt; rest(&mut book, 0, 100, 1), 6);
    assert_eq!(rt; rest(&mut book, 65_536, 100, 1), 6);
    assert_eq!(rt; rest(&mut book, 1, 0, 1), 6);
    assert_eq!(rt; rest(&mut book, 1, 1_000_001, 1), 6);
    assert_eq!(rt; rest(&mut book, 1, 100, 0), 6);
    assert_eq!(rt; rest(&mut book, 1, 100, 1_000_001), 6);
    assert_eq!(rt; rest(&mut book, -9_000_000_000_000_000_000, 100, 1), 6);
    assert_eq!(rt; rest(&mut book, 65_535, 1_000_000, 1_000_000), 0);
    assert_eq!(rt; book.count(), 1);
    let mut net = Book::new(rt.alloc(), Kind::Net)?;
    assert_eq!(rt; rest(&mut net, 1, -1_000_001, 1), 6);
    assert_eq!(rt; rest(&mut net, 1, -1_000_000, 1), 0);
    Ok(())
}

#[test]
fn full(rt: HostRuntime) -> Result<(), Fail> {
    let mut book = Book::new(rt.alloc(), Kind::Series)?;
    // By hand: the numbers are the orders'.
    for n in 1..49 {
        assert_eq!(rt; rest(&mut book, n, 100, 2), 0);
    }
    assert_eq!(rt; book.count(), 48);
    assert_eq!(rt; rest(&mut book, 48, 100, 1), 16);
    assert_eq!(rt; rest(&mut book, 49, 100, 1), 17);
    assert_eq!(rt; told(book.take(3, 1)), 0);
    assert_eq!(rt; rest(&mut book, 49, 100, 1), 17);
    assert_eq!(rt; told(book.take(3, 2)), 15);
    assert_eq!(rt; told(book.take(3, 1)), 0);
    assert!(rt; shows(&book, 3, 100, 0), "an emptied order keeps its place");
    assert_eq!(rt; rest(&mut book, 3, 101, 5), 0);
    assert_eq!(rt; book.count(), 48);
    assert!(rt;
        shows(&book, 3, 100, 2) && shows(&book, 48, 101, 5),
        "the emptied order is gone"
    );
    assert_eq!(rt; rest(&mut book, 3, 101, 5), 16);
    Ok(())
}

#[test]
fn seam(rt: HostRuntime) -> Result<(), Fail> {
    let mut first = Book::new(rt.alloc(), Kind::Series)?;
    let mut second = Book::new(rt.alloc(), Kind::Series)?;
    assert_eq!(rt; rest(&mut first, 1, 10, 1), 0);
    assert_eq!(rt; rest(&mut first, 2, 20, 2), 0);
    assert_eq!(rt; rest(&mut second, 1, 30, 3), 0);
    let mut both = Pair { first, second };
    assert_eq!(rt; both.count(), 3);
    assert!(rt; shows(&both, 2, 20, 2) && shows(&both, 3, 30, 3));
    assert_eq!(rt; told(both.entry(0)), 15);
    assert_eq!(rt; told(both.entry(4)), 15);
    assert_eq!(rt; told(both.take(3, 2)), 0);
    assert_eq!(rt; told(both.take(2, 3)), 15);
    assert_eq!(rt; told(both.take(2, 0)), 15);
    assert_eq!(rt; told(both.take(4, 1)), 15);
    assert!(rt; shows(&both, 1, 10, 1) && shows(&both, 2, 20, 2) && shows(&both, 3, 30, 1));
    Ok(())
}
