// The lines dealt to, level by level.
ghost use Rattle.std.specs.Prelude.{◌≡◌, ℕ, ◌-◌, ◌≤◌, min, length, take, if◌then◌else◌, Some, slice_index};
ghost use Rattle.std.specs.List.{slice_get};
ghost use Rattle.filling.specs.declared.interest.Interest.{Interest};
ghost use Rattle.filling.specs.Totals.{level as at_level, customer_at, other_at, sizes, contracts};
ghost use Rattle.share.specs.Shares.{shares};
ghost use Rattle.deal.specs.Plans.{planned};
ghost use Rattle.deal.specs.Levels.{turns_from};

use super::lines::{Lines, is_customer_at, is_other_at};
use super::plans::Plan;
use super::terms::MOST_LINES;
use super::turns::Turn;
use arrayvec::ArrayVec;
use share::share_out;

// By hand: the counts stand beside the lines as a lent table; a struct of both would have to say in each method that it
// still holds the caller's table, a clause for each that it spares.
impl<'a> Lines<'a> {
    // The others of a level, in line.
    fn turns_at(&self, level: i32) -> ArrayVec<Turn, MOST_LINES>
        ensures { result.items ≡ turns_from level 0 self.now }
    {
        // By hand: a chain would end in `from_iter`, which can fail for want of room.
        let mut turns = ArrayVec::new();
        for (place, line) in self.lines.iter().enumerate() {
            if is_other_at(line, level) {
                // A place is below 128, so the cast is exact.
                turns.push(Turn {
                    place: place as u32,
                    size: line.size,
                });
            }
        }
        turns
    }

    // Gives the customers of a level what is left for them, in line order.
    fn serve_customers(&self, room: u32, level: i32, out: &mut [u32])
        requires { length out.old ≡ length self.now }
        ensures { (i : ℕ) (l : Interest) → slice_get self.now i ≡ Some l → slice_index out.new i ≡ (if customer_at level l then min l.size (room - contracts (customer_at level) (take i self.now)) else slice_index out.old i) }
    {
        let mut left = room;
        // By hand, and not zipped with `out.iter_mut()`: after that loop a proof knows none of the counts.
        for (i, line) in self.lines.iter().enumerate() {
            if is_customer_at(line, level) {
                let part = line.size.min(left);
                out[i] = part;
                left -= part;
            }
        }
    }

    // Gives the others of a level their parts, in line order.
    fn hand_out(&self, level: i32, turns: &[Turn], parts: &[u32], out: &mut [u32])
        requires turns { turns.now ≡ turns_from level 0 self.now }
        requires each { length parts.now ≡ length turns.now }
        requires places { length out.old ≡ length self.now }
        ensures { (i : ℕ) (l : Interest) → slice_get self.now i ≡ Some l → slice_index out.new i ≡ (if other_at level l then slice_index parts.now (length (sizes (other_at level) (take i self.now))) else slice_index out.old i) }
    {
        // By place: a turn says where its line stands.
        for (turn, part) in turns.iter().zip(parts) {
            out[turn.place as usize] = *part;
        }
    }

    // Shares a pot out over the others of a level.
    fn serve_others(&self, pot: u32, level: i32, out: &mut [u32])
        requires places { length out.old ≡ length self.now }
        requires within { pot ≤ contracts (other_at level) self.now }
        ensures { (i : ℕ) (l : Interest) → slice_get self.now i ≡ Some l → slice_index out.new i ≡ (if other_at level l then slice_index (shares pot (sizes (other_at level) self.now)) (length (sizes (other_at level) (take i self.now))) else slice_index out.old i) }
    {
        let turns = self.turns_at(level);
        // A table, since it is lent to the share-out, which writes over it.
        let mut counts = [0; MOST_LINES];
        let parts = &mut counts[..turns.len()];
        share_out(pot, &turns, parts).unwrap();
        self.hand_out(level, &turns, parts, out);
    }

    // Deals to the lines of a level.
    fn deal_level(&self, plan: &Plan, level: i32, out: &mut [u32])
        requires { length out.old ≡ length self.now }
        ensures { (i : ℕ) (l : Interest) → slice_get self.now i ≡ Some l → slice_index out.new i ≡ (if at_level level l then slice_index (planned plan.now self.now) i else slice_index out.old i) }
    {
        self.serve_customers(plan.room(self, level), level, out);
        self.serve_others(plan.pot(self, level), level, out);
    }

    // Deals to the lines from the best level down: writes what each line gets.
    pub(crate) fn deal(&self, plan: &Plan, out: &mut [u32])
        requires { length out.old ≡ length self.now }
        ensures { out.new ≡ planned plan.now self.now }
    {
        // A `while`: each round asks for the next level below the last one.
        let mut bound: Option<i32> = None;
        while let Some(level) = self.best_below(bound) {
            self.deal_level(plan, level, out);
            bound = Some(level);
        }
    }
}
