// A desk that holds auctions in a house: what a ticket lets it do.
#![tactic(auto)]

ghost use Rattle.std.specs.Prelude.{◌≡◌, is_ok, is_some, not, IfSome};
ghost use Rattle.house.specs.Calls.{halt_step};
ghost use Rattle.house.specs.Told.{view, bears};

use house::state::House;
use house::ticket::{Returned, Ticket};

#[cfg(test)]
mod calls;
#[cfg(test)]
mod limits;

// Halts an auction; where that is refused, the ticket is the desk's again.
pub fn halt_or_keep(house: &mut House, ticket: Ticket, at: i64) -> Option<Ticket>
    ensures kept { is_some result ≡ not (is_ok (halt_step (view house.old) (bears ticket) at).answer) }
    ensures same { IfSome result (λ t. t ≡ ticket) }
    ensures after { view house.new ≡ (halt_step (view house.old) (bears ticket) at).after }
{
    match house.halt(ticket, at) {
        Ok(()) => None,
        Err(Returned { refusal: _, ticket }) => Some(ticket),
    }
}
