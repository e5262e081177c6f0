// What a house allows, and what its calls do.
ghost use Rattle.std.specs.Prelude.{◌≡◌, true, Some};
ghost use Rattle.market.specs.Fields.{nat_of};
ghost use Rattle.house.specs.View.{end_of};
ghost use Rattle.house.specs.Running.{running_of};
ghost use Rattle.house.specs.Fields.{seat_ok, response_ok};
ghost use Rattle.house.specs.Calls.{allowed, is_early, is_over, is_taken, is_worse, is_its, respond_rows, amend_rows, delete_rows, halt_rows, enter_rows};
ghost use Rattle.house.specs.Told.{view, bears};

use super::entering::Entering;
use super::fields::{delete_ok, enter_ok, moment_ok, response_ok, seat_ok, too_small};
use super::making::{entered_order, response_line};
use super::prices::{gains_less, has_customer_beside, is_better_away, is_outbid};
use super::responding::Responding;
use super::running::Running;
use super::state::House;
use super::ticket::Ticket;
use market::depth::Depth;
use market::refusal::Refusal;

// How many auctions a house starts.
pub const MOST_AUCTIONS: u32 = 1_000_000;

// How many entries of the pool an auction takes in.
pub const MOST_SHOWN: usize = 64;

impl House {
    // Whether a moment lies before the last one.
    pub(crate) fn is_early(&self, at: i64) -> bool
        ensures { result ≡ is_early (view self.now) at }
    {
        at < self.last
    }

    // Whether something stands in a member's slot.
    fn is_taken(&self, member: i64, slot: i64) -> bool
        requires { seat_ok member slot ≡ true }
        ensures { result ≡ is_taken (view self.now) member slot }
    {
        self.places.at(member as u8, slot as u8).is_some()
    }

    // Whether a response gains less than the running order asks.
    fn is_worse(&self, running: &Running, r: &Responding) -> bool
        requires { response_ok self.now.kind r.now ≡ true }
        ensures { result ≡ is_worse (running_of (Some running.now)) r.now }
    {
        gains_less(&running.order, &response_line(self.kind, r))
    }

    pub(crate) fn may_respond(&self, r: &Responding) -> Result<(), Refusal>
        ensures { result ≡ allowed (respond_rows (view self.now) r.now) }
    {
        if self.is_early(r.at) {
            return Err(Refusal::MomentPassed);
        }
        let Some(running) = self.running else {
            return Err(Refusal::NotRunning);
        };
        if running.end <= r.at {
            return Err(Refusal::ExposureOver);
        }
        if !response_ok(self.kind, r) {
            return Err(Refusal::OutOfLimits);
        }
        if self.is_worse(&running, r) {
            return Err(Refusal::WorseThanOrder);
        }
        if self.is_taken(r.member, r.slot) {
            return Err(Refusal::PlaceTaken);
        }
        Ok(())
    }

    pub(crate) fn may_amend(&self, r: &Responding) -> Result<(), Refusal>
        ensures { result ≡ allowed (amend_rows (view self.now) r.now) }
    {
        if self.is_early(r.at) {
            return Err(Refusal::MomentPassed);
        }
        let Some(running) = self.running else {
            return Err(Refusal::NotRunning);
        };
        if running.end <= r.at {
            return Err(Refusal::ExposureOver);
        }
        if !response_ok(self.kind, r) {
            return Err(Refusal::OutOfLimits);
        }
        if self.is_worse(&running, r) {
            return Err(Refusal::WorseThanOrder);
        }
        if !self.is_taken(r.member, r.slot) {
            return Err(Refusal::PlaceEmpty);
        }
        Ok(())
    }

    pub(crate) fn may_delete(&self, member: i64, slot: i64, at: i64) -> Result<(), Refusal>
        ensures { result ≡ allowed (delete_rows (view self.now) member slot at) }
    {
        if self.is_early(at) {
            return Err(Refusal::MomentPassed);
        }
        let Some(running) = self.running else {
            return Err(Refusal::NotRunning);
        };
        if running.end <= at {
            return Err(Refusal::ExposureOver);
        }
        if !delete_ok(member, slot, at) {
            return Err(Refusal::OutOfLimits);
        }
        if !self.is_taken(member, slot) {
            return Err(Refusal::PlaceEmpty);
        }
        Ok(())
    }

    // Whether a ticket is that of the auction which runs.
    pub(crate) fn is_its(&self, ticket: &Ticket) -> bool
        ensures { result ≡ is_its (view self.now) (bears ticket.now) }
    {
        self.running.is_some() && (ticket.house == self.number && ticket.auction == self.started)
    }

    pub(crate) fn may_halt(&self, ticket: &Ticket, at: i64) -> Result<(), Refusal>
        ensures { result ≡ allowed (halt_rows (view self.now) (bears ticket.now) at) }
    {
        if self.is_early(at) {
            return Err(Refusal::MomentPassed);
        }
        if !self.is_its(ticket) {
            return Err(Refusal::NotRunning);
        }
        if !moment_ok(at) {
            return Err(Refusal::OutOfLimits);
        }
        Ok(())
    }

    pub(crate) fn may_enter<P: Depth, A: Depth>(
        &self,
        e: &Entering,
        pool: &P,
        away: &A,
    ) -> Result<(), Refusal>
        ensures { result ≡ allowed (enter_rows (view self.now) e.now (P.entries pool.now) (A.entries away.now)) }
    {
        if self.is_early(e.at) {
            return Err(Refusal::MomentPassed);
        }
        if self.running.is_some() {
            return Err(Refusal::AuctionOpen);
        }
        if !enter_ok(self.kind, e) {
            return Err(Refusal::OutOfLimits);
        }
        if self.started >= MOST_AUCTIONS {
            return Err(Refusal::TooManyAuctions);
        }
        let order = entered_order(self.kind, e);
        if too_small(self.ratio, &order) {
            return Err(Refusal::TooSmall);
        }
        if pool.count() > MOST_SHOWN {
            return Err(Refusal::PoolTooDeep);
        }
        if is_outbid(&order, pool, away) {
            return Err(Refusal::PriceOutside);
        }
        if has_customer_beside(&order, pool) {
            return Err(Refusal::PriceOutside);
        }
        if is_better_away(&order, away) {
            return Err(Refusal::PriceOutside);
        }
        Ok(())
    }
}
