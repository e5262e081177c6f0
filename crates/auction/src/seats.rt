// Lines in line order: entries of the pool by rising place, then responses, each member's slot once.
ghost use Rattle.std.specs.Prelude.{◌≡◌, ◌*◌, ◌<◌, ◌↔◌, true, IsSome, IfSome};
ghost use Rattle.auction.specs.Limits.{most_members, most_slots};
ghost use Rattle.auction.specs.Lines.{next_place, stands_in_line, lawful};
ghost use Rattle.auction.specs.Seats.{is_seat, seat_of, free_seat, may_follow, seats_after};

use super::limits::{MOST_MEMBERS, MOST_SLOTS};
use super::line::Line;
use deal::terms::MOST_LINES;
use market::fill::Party;
use market::limits::MOST_ENTRIES;

// The slots of all members.
const SEATS: usize = MOST_MEMBERS as usize * MOST_SLOTS as usize;

// A slot of a member.
#[derive(Clone, Copy)]
struct Seat {
    member: u8,
    slot: u8,
    ghost there: { is_seat member slot ≡ true },
}

impl Seat {
    // None where there is no such slot.
    fn new(member: u8, slot: u8) -> Option<Seat>
        ensures there { IsSome result ↔ (is_seat member slot ≡ true) }
        ensures same { IfSome result (λ seat. (seat.member ≡ member) × (seat.slot ≡ slot)) }
    {
        if !(1..=MOST_MEMBERS).contains(&member) || !(1..=MOST_SLOTS).contains(&slot) {
            return None;
        }
        Some(Seat { member, slot })
    }

    // Its number, from 0.
    fn number(self) -> usize
        ensures number { result ≡ seat_of self.member self.slot }
        ensures within { result < most_members * most_slots }
    {
        usize::from(self.member - 1) * usize::from(MOST_SLOTS) + usize::from(self.slot - 1)
    }
}

// What stands in front: the place from which entries may stand behind it, and the seats that it has.
#[derive(Drop)]
struct Front {
    low: usize,
    taken: [bool; SEATS],
}

impl Front {
    // Whether nobody in front has a seat.
    fn is_free(&self, seat: Seat) -> bool
        ensures { result ≡ free_seat self.now.taken seat.member seat.slot }
    {
        !self.taken[seat.number()]
    }

    // Whether a party may stand next. If so, it is in front from now on.
    fn admit(&mut self, party: Party) -> bool
        ensures answer { result ≡ may_follow self.old.low self.old.taken party }
        ensures low { result ≡ true → self.new.low ≡ next_place party }
        ensures taken { self.new.taken ≡ seats_after self.old.taken party }
    {
        match party {
            Party::Entry(place) => {
                let stands = (self.low..=MOST_ENTRIES).contains(&place);
                if stands {
                    self.low = place + 1;
                }
                stands
            }
            Party::Response { member, slot } => {
                let Some(seat) = Seat::new(member, slot) else {
                    return false;
                };
                let stands = self.is_free(seat);
                if stands {
                    self.low = MOST_ENTRIES + 1;
                    self.taken[seat.number()] = true;
                }
                stands
            }
            Party::Contra => false,
        }
    }
}

// Whether lines stand in line order.
fn in_line(lines: &[Line]) -> bool
    ensures { result ≡ stands_in_line lines.now }
{
    let mut front = Front {
        low: 1,
        taken: [false; SEATS],
    };
    // By hand: `all` would take a closure that changes `front`, of which nothing is then known after the call.
    for line in lines {
        if !front.admit(line.party) {
            return false;
        }
    }
    true
}

// Whether an order can be settled against these lines: not too many, in line order.
pub(crate) fn can_stand(lines: &[Line]) -> bool
    ensures { result ≡ lawful lines.now }
{
    lines.len() <= MOST_LINES && in_line(lines)
}
