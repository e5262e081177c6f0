// An auction as a test writes it, run on both sides of the market.
use auction::limits::LEAST_BLOTTER;
use auction::line::Line;
use auction::order::Order;
use auction::settle::settle;
use auction::settled::Settled;
use market::fill::{Fill, Party, Reason};
use market::names::{Class, Mechanism, Side};
use market::refusal::Refusal;
use std::alloc::{AllocError, Global};
use std::test::Fail;

// Who stands, at which price, with how many contracts, of which class.
pub(crate) type Stand = (Party, i64, i64, Class);

// An order that sells: mechanism, size, price, reserve.
pub(crate) type Terms = (Mechanism, i64, i64, i64);

// An entry of the pool, and a response.
pub(crate) fn entry(place: usize, price: i64, size: i64, class: Class) -> Stand {
    (Party::Entry(place), price, size, class)
}

pub(crate) fn response(member: u8, slot: u8, price: i64, size: i64, class: Class) -> Stand {
    (Party::Response { member, slot }, price, size, class)
}

// A blotter on which nothing was written yet.
pub(crate) fn blank() -> [Fill; LEAST_BLOTTER] {
    [NOTHING; LEAST_BLOTTER]
}

pub(crate) const NOTHING: Fill = Fill {
    party: Party::Contra,
    price: 7,
    contracts: 9,
};

// The price on a side of the market: an order to buy sees the auction of one to sell with all prices turned over.
fn turned(side: Side, price: i64) -> i64 {
    match side {
        Side::Sell => price,
        Side::Buy => price.wrapping_neg(),
    }
}

// The lines on a side.
pub(crate) fn stand(heap: Global, side: Side, lines: &[Stand]) -> Result<Vec<Line>, AllocError> {
    let mut made = Vec::new(heap);
    for (party, price, size, class) in lines {
        if let Ok(line) = Line::new(*party, turned(side, *price), *size, *class) {
            made.push(line)?;
        }
    }
    Ok(made)
}

fn run(
    heap: Global,
    side: Side,
    terms: Terms,
    lines: &[Stand],
    blotter: &mut [Fill],
) -> Result<Settled, Fail> {
    let (mechanism, size, price, reserve) = terms;
    let Ok(order) = Order::new(mechanism, side, size, turned(side, price), reserve) else {
        return Err(Fail::new("the order is refused"));
    };
    let lines = stand(heap, side, lines)?;
    match settle(&order, lines.as_slice(), blotter) {
        Ok(settled) => Ok(settled),
        Err(_) => Err(Fail::new("the settlement is refused")),
    }
}

// Whether a blotter has these lines, and nothing behind them.
fn has(blotter: &[Fill], side: Side, fills: &[(Party, i64, u32)]) -> bool {
    for (i, fill) in blotter.iter().enumerate() {
        let (party, price, contracts) = match fills.get(i) {
            Some((party, price, contracts)) => (*party, turned(side, *price), *contracts),
            None => (NOTHING.party, i64::from(NOTHING.price), NOTHING.contracts),
        };
        if fill.party != party || i64::from(fill.price) != price || fill.contracts != contracts {
            return false;
        }
    }
    true
}

// Runs an order on both sides, which has to execute with these fills.
pub(crate) fn executes(
    heap: Global,
    terms: Terms,
    lines: &[Stand],
    fills: &[(Party, i64, u32)],
) -> Result<(), Fail> {
    for side in [Side::Sell, Side::Buy] {
        let mut blotter = blank();
        let Ok(executed) = run(heap, side, terms, lines, &mut blotter)? else {
            return Err(Fail::new("cancelled"));
        };
        if executed.lines != fills.len() || !has(&blotter, side, fills) {
            return Err(Fail::new("other fills"));
        }
    }
    Ok(())
}

// The same of one that has to be cancelled for this reason.
pub(crate) fn cancels(
    heap: Global,
    terms: Terms,
    lines: &[Stand],
    expected: Reason,
) -> Result<(), Fail> {
    for side in [Side::Sell, Side::Buy] {
        let mut blotter = blank();
        let Err(reason) = run(heap, side, terms, lines, &mut blotter)? else {
            return Err(Fail::new("executed"));
        };
        if reason != expected || !has(&blotter, side, &[]) {
            return Err(Fail::new("another reason"));
        }
    }
    Ok(())
}

// 0, or the number of the refusal, and whether the blotter is as it came.
pub(crate) fn refused(heap: Global, lines: &[Stand], blotter: usize) -> Result<(u8, bool), Fail> {
    let Ok(order) = Order::new(Mechanism::Facilitation, Side::Sell, 10, 100, 0) else {
        return Err(Fail::new("the order is refused"));
    };
    let lines = stand(heap, Side::Sell, lines)?;
    let mut table = [NOTHING; 200];
    let room = table.len().min(blotter);
    let number = match settle(&order, lines.as_slice(), &mut table[..room]) {
        Ok(_) => 0,
        Err(refusal) => refusal.number(),
    };
    Ok((number, has(&table, Side::Sell, &[])))
}
