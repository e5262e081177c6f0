// What stands in the places, and how it changes.
ghost use Rattle.std.specs.Prelude.{◌≡◌, ◌<◌, true, [], Some, Option, length};
ghost use Rattle.std.specs.List.{slice_get};
ghost use Rattle.market.specs.declared.fill.Party.TheVariants.{Response};
ghost use Rattle.auction.specs.Seats.{is_seat, seat_of};
ghost use Rattle.places.specs.Standing.{standing, without, put_answer, after_put, copy_answer, after_copy};
ghost use Rattle.places.specs.Table.{line_of};

use super::table::{Places, SEATS};
use super::turns::{join, leave};
use arrayvec::ArrayVec;
use auction::limits::{MOST_MEMBERS, MOST_SLOTS};
use auction::line::Line;
use market::fill::Party;
use market::refusal::Refusal;

impl Places {
    // Nothing stands.
    pub fn new() -> Places
        ensures { line_of result ≡ [] }
    {
        let turns = ArrayVec::new();
        Places {
            held: [None; SEATS],
            turns,
        }
    }

    // What stands in a member's slot.
    pub fn at(&self, member: u8, slot: u8) -> Option<Line>
        ensures { result ≡ standing (Response member slot) (line_of self.now) }
    {
        if !is_seat(member, slot) {
            return None;
        }
        self.held[seat(member, slot)]
    }

    // Puts a response at the end of the line, in place of what stood in its slot; refused where it is of no slot.
    pub fn put(&mut self, line: Line) -> Result<(), Refusal>
        ensures answer { result ≡ put_answer line }
        ensures after { line_of self.new ≡ after_put line (line_of self.old) }
    {
        match line.party {
            Party::Response { member, slot } if is_seat(member, slot) => {
                let place = seat(member, slot);
                join(&mut self.turns, place as u8);
                self.held[place] = Some(line);
                Ok(())
            }
            _ => Err(Refusal::OutOfLimits),
        }
    }

    // Takes away what stands in a member's slot.
    pub fn clear(&mut self, member: u8, slot: u8)
        ensures { line_of self.new ≡ without (Response member slot) (line_of self.old) }
    {
        if !is_seat(member, slot) {
            return;
        }
        let place = seat(member, slot);
        leave(&mut self.turns, place as u8);
        self.held[place] = None;
    }

    // Who stands at a turn.
    fn in_turn(&self, turn: usize) -> Line
        requires { turn < length self.now.turns.items }
        ensures { Some result ≡ slice_get (line_of self.now) turn }
    {
        let place = self.turns.as_slice()[turn] as usize;
        let held = self.held[place];
        held.unwrap()
    }

    // Copies the responses in line order to the front of a table, and says how many they are; refused where it is too short.
    pub fn copy_to(&self, out: &mut [Line]) -> Result<usize, Refusal>
        ensures answer { result ≡ copy_answer (line_of self.now) (length out.old) }
        ensures after { out.new ≡ after_copy (line_of self.now) out.old }
    {
        let many = self.turns.len();
        if many > out.len() {
            return Err(Refusal::OutOfLimits);
        }
        for turn in 0..many {
            out[turn] = self.in_turn(turn);
        }
        Ok(many)
    }
}

// Whether a member has such a slot.
fn is_seat(member: u8, slot: u8) -> bool
    ensures { result ≡ is_seat member slot }
{
    (1..=MOST_MEMBERS).contains(&member) && (1..=MOST_SLOTS).contains(&slot)
}

// The place of a member's slot in the table.
fn seat(member: u8, slot: u8) -> usize
    requires { is_seat member slot ≡ true }
    ensures value { result ≡ seat_of member slot }
    ensures low { result < 64 }
{
    (member as usize - 1) * 4 + (slot as usize - 1)
}
