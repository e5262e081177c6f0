// The away board: the prices of other markets.
ghost use Rattle.std.specs.Prelude.{ℕ, ◌≤◌, vec_len, vec_capacity};
ghost use Rattle.pools.specs.Limits.{most_away};

use market::entry::Entry;

pub mod ops;

// Entries of one contract each. The memory for all of them is had from the start.
#[derive(Drop)]
pub struct AwayBoard {
    shown: Vec<Entry>,
    ghost room: { most_away ≤ vec_capacity shown },
    ghost few: { vec_len shown ≤ most_away },
}
