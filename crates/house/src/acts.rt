// The calls of a house that change it.
ghost use Rattle.std.specs.Prelude.{◌≡◌, true, pos, ◌+ℤ◌, ◌≤ℤ◌};
ghost use Rattle.house.specs.Fields.{times_ok};
ghost use Rattle.house.specs.Calls.{enter_step, respond_step, amend_step, delete_step, halt_step};
ghost use Rattle.house.specs.Told.{view, bears, ticket_told, told, HandsBack};

use super::entering::Entering;
use super::making::{entered_order, response_line};
use super::responding::Responding;
use super::running::Running;
use super::state::House;
use super::ticket::{Returned, Ticket};
use market::depth::Depth;
use market::refusal::Refusal;
use places::table::Places;

// The moment at which an exposure ends.
fn exposure_end(at: i64, time: i64) -> i64
    requires late { pos 0 ≤ℤ at }
    requires times { times_ok time at ≡ true }
    ensures { result ≡ at +ℤ time }
{
    at + time
}

impl House {
    // Opens an auction for an order, and hands out its ticket; the pool and the away board stand as they are now.
    pub fn enter<P: Depth, A: Depth>(
        &mut self,
        e: Entering,
        pool: &P,
        away: &A,
    ) -> Result<Ticket, Refusal>
        ensures answer { ticket_told result ≡ (enter_step (view self.old) e (P.entries pool.now) (A.entries away.now)).answer }
        ensures after { view self.new ≡ (enter_step (view self.old) e (P.entries pool.now) (A.entries away.now)).after }
    {
        self.may_enter(&e, pool, away)?;
        let order = entered_order(self.kind, &e);
        self.started += 1;
        self.entered += u64::from(order.size);
        self.running = Some(Running {
            order,
            end: exposure_end(e.at, e.time),
        });
        self.places = Places::new();
        self.last = e.at;
        Ok(Ticket {
            house: self.number,
            auction: self.started,
            spent: false,
        })
    }

    // A member responds in an empty place.
    pub fn respond(&mut self, r: Responding) -> Result<(), Refusal>
        ensures answer { result ≡ (respond_step (view self.old) r).answer }
        ensures after { view self.new ≡ (respond_step (view self.old) r).after }
    {
        self.may_respond(&r)?;
        let line = response_line(self.kind, &r);
        self.places.put(line)?;
        self.last = r.at;
        Ok(())
    }

    // A member's response is another from now on, at the end of the line.
    pub fn amend(&mut self, r: Responding) -> Result<(), Refusal>
        ensures answer { result ≡ (amend_step (view self.old) r).answer }
        ensures after { view self.new ≡ (amend_step (view self.old) r).after }
    {
        self.may_amend(&r)?;
        let line = response_line(self.kind, &r);
        self.places.put(line)?;
        self.last = r.at;
        Ok(())
    }

    // A member takes its response back.
    pub fn delete(&mut self, member: i64, slot: i64, at: i64) -> Result<(), Refusal>
        ensures answer { result ≡ (delete_step (view self.old) member slot at).answer }
        ensures after { view self.new ≡ (delete_step (view self.old) member slot at).after }
    {
        self.may_delete(member, slot, at)?;
        self.places.clear(member as u8, slot as u8);
        self.last = at;
        Ok(())
    }

    // Ends the auction without execution.
    pub fn halt(&mut self, mut ticket: Ticket, at: i64) -> Result<(), Returned>
        ensures answer { told result ≡ (halt_step (view self.old) (bears ticket) at).answer }
        ensures after { view self.new ≡ (halt_step (view self.old) (bears ticket) at).after }
        ensures back { HandsBack result ticket }
    {
        if let Err(refusal) = self.may_halt(&ticket, at) {
            return Err(Returned { refusal, ticket });
        }
        ticket.spent = true;
        if let Some(running) = self.running {
            self.cancelled += u64::from(running.order.size);
        }
        self.running = None;
        self.last = at;
        Ok(())
    }
}
