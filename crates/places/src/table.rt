// The table of places.
ghost use Rattle.std.specs.Prelude.{◌≡◌, true, length};
ghost use Rattle.places.specs.Turns.{apart, under};
ghost use Rattle.places.specs.Held.{Lined, Owned};

use arrayvec::ArrayVec;
use auction::line::Line;

// The slots of all members.
pub const SEATS: usize = 64;

// A response or none for each member's slot, and the turns of those that hold one.
#[derive(Drop)]
pub struct Places {
    pub(crate) held: [Option<Line>; SEATS],
    pub(crate) turns: ArrayVec<u8, SEATS>,
    ghost whole: { length held ≡ 64 },
    ghost lined: { Lined held turns.items },
    ghost own: { Owned held },
    ghost once: { apart turns.items ≡ true },
    ghost low: { under 64 turns.items ≡ true },
}
