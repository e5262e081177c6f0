// What an away board lists.
ghost use Rattle.std.specs.Prelude.{◌≡◌, List, [], IfOk};
ghost use Rattle.pools.specs.Away.{board_held, away_answer, after_away};
ghost use Rattle.std.proofs.Common.{rules, arith};

use super::AwayBoard;
use market::depth::Depth;
use market::entry::Entry;
use market::fields::in_range;
use market::limits::HIGHEST_PRICE;
use market::lists::at_place;
use market::names::{Class, Side};
use market::refusal::Refusal;
use std::alloc::{AllocError, Global};

// The most entries that a board shows.
pub const MOST_AWAY: usize = 16;

impl AwayBoard {
    // An empty board.
    pub fn new(heap: Global) -> Result<AwayBoard, AllocError>
        ensures { IfOk result (λ b. board_held b ≡ []) }
    {
        let shown = Vec::with_capacity(heap, MOST_AWAY)?;
        Ok(AwayBoard { shown })
    }

    // Appends a price of another market. Refused where it is outside its limits, or the board is full.
    pub fn away(&mut self, side: Side, price: i64) -> Result<(), Refusal>
        ensures answer { result ≡ away_answer (board_held self.old) price }
        ensures after { board_held self.new ≡ after_away (board_held self.old) side price }
    {
        if !in_range(price, 1, i64::from(HIGHEST_PRICE)) {
            return Err(Refusal::OutOfLimits);
        }
        if self.shown.len() >= MOST_AWAY {
            return Err(Refusal::NoSpace);
        }
        let entry = Entry::new(side, price, 1, Class::Other).unwrap();
        self.shown.push_reserved(entry);
        Ok(())
    }
}

impl Depth for AwayBoard {
    ghost entries = { λ b. board_held b };

    ghost limits = { Prim.search rules };

    fn count(&self) -> usize {
        self.shown.len()
    }

    fn entry(&self, place: usize) -> Result<Entry, Refusal> {
        at_place(&self.shown, place)
    }
}
