// The market of a sheet: what its lines rest, quote and show away.
ghost use Rattle.std.specs.Prelude.{◌≡◌, [], IfOk};
ghost use Rattle.market.specs.declared.names.Kind.TheVariants.{Series, Net};
ghost use Rattle.legs.specs.Held.{legs_held};
ghost use Rattle.pools.specs.Books.{fresh_book};
ghost use Rattle.pools.specs.Sheets.{series, net, market_held, rest_in, after_rest_in, quote_in, after_quote_in, away_in, after_away_in};

use super::board::AwayBoard;
use super::book::Book;
use super::empty::Empty;
use super::pair::Pair;
use legs::pool::LegsMarket;
use market::names::{Edge, Kind, Side};
use market::refusal::Refusal;
use market::resting::Resting;
use std::alloc::{AllocError, Global};

// A series has a book and an away board. A net has a book and its legs as one pool, the book first, and nothing away.
// That the book of each is of its kind, `series` and `net` see to. By hand: a variant takes no ghost field, and a book with its
// kind in its type could not be made by the public `Book::new`, which takes the kind as a value.
#[derive(Drop)]
pub enum SheetMarket {
    Series {
        pool: Book,
        away: AwayBoard,
    },
    Net {
        pool: Pair<Book, LegsMarket>,
        away: Empty,
    },
}

impl SheetMarket {
    // The market of a series.
    pub fn series(heap: Global) -> Result<SheetMarket, AllocError>
        ensures { IfOk result (λ m. market_held m ≡ series (fresh_book Series) []) }
    {
        let pool = Book::new(heap, Kind::Series)?;
        let away = AwayBoard::new(heap)?;
        Ok(SheetMarket::Series { pool, away })
    }

    // The market of a net of these legs.
    pub fn net(heap: Global, legs: LegsMarket) -> Result<SheetMarket, AllocError>
        ensures { IfOk result (λ m. market_held m ≡ net (fresh_book Net) (legs_held legs)) }
    {
        let book = Book::new(heap, Kind::Net)?;
        let pool = Pair {
            first: book,
            second: legs,
        };
        Ok(SheetMarket::Net { pool, away: Empty })
    }

    // Rests an order in the book.
    pub fn rest(&mut self, new: Resting) -> Result<(), Refusal>
        ensures answer { result ≡ rest_in (market_held self.old) new.number new.price new.size }
        ensures after { market_held self.new ≡ after_rest_in (market_held self.old) new.number new.side new.price new.size new.class }
    {
        match self {
            SheetMarket::Series { pool, .. } => pool.rest(new),
            SheetMarket::Net { pool, .. } => pool.first.rest(new),
        }
    }

    // Replaces one side of a leg; refused in a series. The sizes are borrowed here and owned by a sheet's form, so no one
    // struct holds both.
    pub fn quote(&mut self, leg: i64, edge: Edge, price: i64, sizes: &[i64]) -> Result<(), Refusal>
        ensures answer { result ≡ quote_in (market_held self.old) leg price sizes.now }
        ensures after { market_held self.new ≡ after_quote_in (market_held self.old) leg edge price sizes.now }
    {
        match self {
            SheetMarket::Series { .. } => Err(Refusal::OutOfLimits),
            SheetMarket::Net { pool, .. } => pool.second.quote(leg, edge, price, sizes),
        }
    }

    // Shows a price of another market; refused in a net.
    pub fn away(&mut self, side: Side, price: i64) -> Result<(), Refusal>
        ensures answer { result ≡ away_in (market_held self.old) price }
        ensures after { market_held self.new ≡ after_away_in (market_held self.old) side price }
    {
        match self {
            SheetMarket::Series { away, .. } => away.away(side, price),
            SheetMarket::Net { .. } => Err(Refusal::OutOfLimits),
        }
    }
}
