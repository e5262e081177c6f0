// Depths and pools.
ghost use Rattle.std.specs.Prelude.{◌≡◌, ℕ, ◌≤◌, List, length, is_ok};
ghost use Rattle.market.specs.declared.entry.Entry.{Entry};
ghost use Rattle.market.specs.Limits.{most_entries};
ghost use Rattle.market.specs.Lists.{entry_at, take_answer, after_take, EitherWay};

use super::entry::Entry;
use super::refusal::Refusal;

// A list of entries, placed from 1. Telling it alters nothing.
pub trait Depth {
    ghost entries: { Self → List Entry };

    fn count(&self) -> usize
        ensures { result ≡ length (entries self.now) };

    // Refused where no entry stands at the place.
    fn entry(&self, place: usize) -> Result<Entry, Refusal>
        ensures { result ≡ entry_at (entries self.now) place };

    ghost limits: { (x : Self) → length (entries x) ≤ most_entries };
}

// A depth that contracts can be taken from.
pub trait Pool: Depth {
    // What the pool becomes where n contracts are taken at a place: before, place, n, after.
    ghost took: { Self → ℕ → ℕ → Self → Type 0 };

    // Takes n contracts at a place, which has at least as many; refused, the whole pool is as before.
    fn take(&mut self, place: usize, n: u32) -> Result<(), Refusal>
        ensures answer { result ≡ take_answer (Self.Depth.entries self.old) place n }
        ensures list { Self.Depth.entries self.new ≡ after_take (Self.Depth.entries self.old) place n }
        ensures pool { EitherWay (is_ok result) (took self.old place n self.new) (self.new ≡ self.old) };
}
