// The turns of the places.
ghost use Rattle.std.specs.Prelude.{◌≡◌, ◌<◌, true, [], ◌∷◌, ◌++◌};
ghost use Rattle.places.specs.Turns.{apart, under, without_turn};

use super::table::SEATS;
use arrayvec::ArrayVec;

// A place leaves the line.
pub(crate) fn leave(turns: &mut ArrayVec<u8, SEATS>, place: u8)
    ensures { turns.new.items ≡ without_turn place turns.old.items }
{
    turns.retain(|turn| *turn != place);
}

// A place goes to the end of the line.
pub(crate) fn join(turns: &mut ArrayVec<u8, SEATS>, place: u8)
    requires place { place < 64 }
    requires once { apart turns.old.items ≡ true }
    requires low { under 64 turns.old.items ≡ true }
    ensures { turns.new.items ≡ without_turn place turns.old.items ++ place ∷ [] }
{
    leave(turns, place);
    turns.push(place);
}
