// What a house tells.
ghost use Rattle.std.specs.Prelude.{◌≡◌, ◌+◌};
ghost use Rattle.house.specs.View.{open_of};
ghost use Rattle.house.specs.Calls.{ticketless};
ghost use Rattle.house.specs.Told.{view, offered};

use super::fields::seat_ok;
use super::state::House;
use market::names::Class;
use market::refusal::Refusal;

// What a response offers.
#[derive(Clone, Copy, PartialEq, Eq)]
pub struct Offer {
    pub price: i32,
    pub size: u32,
    pub class: Class,
}

impl House {
    pub fn number(&self) -> u16
        ensures { result ≡ (view self.now).number }
    {
        self.number
    }

    // The moment of the last accepted call, 0 at first.
    pub fn last(&self) -> i64
        ensures { result ≡ (view self.now).last }
    {
        self.last
    }

    // How many auctions it started.
    pub fn started(&self) -> u32
        ensures { result ≡ (view self.now).started }
    {
        self.started
    }

    // Contracts of all orders that were entered.
    pub fn entered(&self) -> u64
        ensures value { result ≡ (view self.now).entered }
        ensures balance { result ≡ (view self.now).filled + (view self.now).cancelled + open_of (view self.now).running }
    {
        self.entered
    }

    // Those that are filled.
    pub fn filled(&self) -> u64
        ensures { result ≡ (view self.now).filled }
    {
        self.filled
    }

    // Those that are cancelled.
    pub fn cancelled(&self) -> u64
        ensures { result ≡ (view self.now).cancelled }
    {
        self.cancelled
    }

    // Those of the order that runs.
    pub fn open(&self) -> u64
        ensures { result ≡ open_of (view self.now).running }
    {
        match self.running {
            Some(running) => u64::from(running.order.size),
            None => 0,
        }
    }

    // What stands in a member's slot, between auctions too.
    pub fn place(&self, member: i64, slot: i64) -> Option<Offer>
        ensures { result ≡ offered (view self.now) member slot }
    {
        if !seat_ok(member, slot) {
            return None;
        }
        self.places.at(member as u8, slot as u8).map(|line| Offer {
            price: line.price,
            size: line.size,
            class: line.class,
        })
    }

    // What a caller without a ticket is told, who would settle or halt.
    pub fn ticketless(&self, at: i64) -> Refusal
        ensures { result ≡ ticketless (view self.now) at }
    {
        if self.is_early(at) {
            Refusal::MomentPassed
        } else {
            Refusal::NotRunning
        }
    }
}
