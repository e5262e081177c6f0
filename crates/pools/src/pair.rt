// Two depths or pools as one.
ghost use Rattle.std.specs.Prelude.{◌≡◌, ◌++◌, take, nat_le};
ghost use Rattle.market.specs.Limits.{most_entries};
ghost use Rattle.pools.specs.Pairs.{PairTook};
ghost use Rattle.std.proofs.Common.{arith};
ghost use Rattle.std.proofs.lemmas.List.{length-take};

use market::depth::{Depth, Pool};
use market::entry::Entry;
use market::limits::MOST_ENTRIES;
use market::refusal::Refusal;

// Two lists as one: the second stands behind the first, as far as a depth's list may reach.
#[derive(Drop)]
pub struct Pair<A, B> {
    pub first: A,
    pub second: B,
}

// Whether a place is in a first list of so many entries.
fn in_first(place: usize, front: usize) -> bool
    ensures { result ≡ nat_le place front }
{
    place <= front
}

impl<X: Depth, Y: Depth> Depth for Pair<X, Y> {
    ghost entries = { λ p. take most_entries (X.Depth.entries p.first ++ Y.Depth.entries p.second) };

    ghost limits = { λ p. let t = length-take most_entries (X.Depth.entries p.first ++ Y.Depth.entries p.second) in omega arith };

    fn count(&self) -> usize {
        let front = self.first.count();
        let back = self.second.count();
        (front + back).min(MOST_ENTRIES)
    }

    fn entry(&self, place: usize) -> Result<Entry, Refusal> {
        if place > MOST_ENTRIES {
            return Err(Refusal::NotTakable);
        }
        let front = self.first.count();
        if in_first(place, front) {
            self.first.entry(place)
        } else {
            self.second.entry(place - front)
        }
    }
}

impl<X: Pool, Y: Pool> Pool for Pair<X, Y> {
    ghost took = { PairTook X.Depth.entries X.Pool.took Y.Pool.took };

    // By hand, beside `entry`: one looks and one takes, and a type for which half it is would be matched on as often.
    fn take(&mut self, place: usize, n: u32) -> Result<(), Refusal> {
        if place > MOST_ENTRIES {
            return Err(Refusal::NotTakable);
        }
        let front = self.first.count();
        if in_first(place, front) {
            self.first.take(place, n)
        } else {
            self.second.take(place - front, n)
        }
    }
}
