// Who gets how many contracts of an order.
ghost use Rattle.std.specs.Prelude.{◌≡◌, true, length, is_ok};
ghost use Rattle.filling.specs.Mechanisms.{facilitated, solicited, blocked};
ghost use Rattle.filling.specs.Rules.{Settles};
ghost use Rattle.deal.specs.Answers.{allocated, allocation_of, fills_in, allocate_answer, after_allocate};

use super::lines::Lines;
use super::plans::Plan;
use super::terms::{Allocation, Terms};
use filling::interest::Interest;
use market::fill::Reason;
use market::names::Mechanism;
use market::refusal::Refusal;

impl<'a> Lines<'a> {
    // Facilitates an order: what the lines leave is the contra's.
    fn facilitate(&self, terms: &Terms, out: &mut [u32]) -> Allocation
        requires { length out.old ≡ length self.now }
        ensures answer { result ≡ allocation_of (facilitated terms.now.size terms.now.gain terms.now.reserved self.now) }
        ensures after { out.new ≡ fills_in out.old (facilitated terms.now.size terms.now.gain terms.now.reserved self.now) }
    {
        self.deal(&Plan::Facilitated(*terms), out);
        Ok(self.rest_of(terms.size, terms.gain) - self.shared_of(terms))
    }

    // Crosses a solicited order: better lines fill it, or lines from its gain on where a customer stands there, or the
    // contra takes all of it.
    fn solicit(&self, terms: &Terms, out: &mut [u32]) -> Allocation
        requires { length out.old ≡ length self.now }
        ensures answer { result ≡ allocation_of (solicited terms.now.size terms.now.gain self.now) }
        ensures after { out.new ≡ fills_in out.old (solicited terms.now.size terms.now.gain self.now) }
    {
        let Terms { size, gain, .. } = *terms;
        if size <= self.better(gain) {
            self.deal(&Plan::Down(size), out);
            return Ok(0);
        }
        if self.customer_from(gain) {
            if size > self.at_least(gain) {
                return Err(Reason::CustomerStands);
            }
            self.deal(&Plan::Down(size), out);
            return Ok(0);
        }
        if self.pooled_over(gain) {
            return Err(Reason::BetterStands);
        }
        out.fill(0);
        Ok(size)
    }

    // Crosses a block: as much as can be executes with the lines.
    fn cross_block(&self, terms: &Terms, out: &mut [u32]) -> Allocation
        requires { length out.old ≡ length self.now }
        ensures answer { result ≡ allocation_of (blocked terms.now.size terms.now.gain self.now) }
        ensures after { out.new ≡ fills_in out.old (blocked terms.now.size terms.now.gain self.now) }
    {
        let standing = self.at_least(terms.gain);
        if standing == 0 {
            return Err(Reason::NoInterest);
        }
        self.deal(&Plan::Down(terms.size.min(standing)), out);
        Ok(0)
    }

    // Crosses an order by its mechanism.
    fn cross(&self, terms: &Terms, out: &mut [u32]) -> Allocation
        requires { length out.old ≡ length self.now }
        ensures answer { result ≡ allocation_of (allocated terms.now self.now) }
        ensures after { out.new ≡ fills_in out.old (allocated terms.now self.now) }
    {
        match terms.mechanism {
            Mechanism::Facilitation => self.facilitate(terms, out),
            Mechanism::Solicited => self.solicit(terms, out),
            Mechanism::Block => self.cross_block(terms, out),
        }
    }
}

// Crosses an order: writes what each line gets, and answers what the contra gets, or why nothing executes. Refused, and
// nothing written, where there are too many lines, or `out` has not one count for each.
pub fn allocate(terms: &Terms, lines: &[Interest], out: &mut [u32]) -> Result<Allocation, Refusal>
    ensures answer { result ≡ allocate_answer terms.now lines.now (length out.old) }
    ensures after { out.new ≡ after_allocate terms.now lines.now out.old }
    ensures fair { is_ok result ≡ true → Settles terms.now.size terms.now.gain lines.now (allocated terms.now lines.now) }
{
    if out.len() != lines.len() {
        return Err(Refusal::OutOfLimits);
    }
    let lines = Lines::new(lines)?;
    Ok(lines.cross(terms, out))
}
