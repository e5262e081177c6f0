// The lines that stand against an order.
ghost use Rattle.std.specs.Prelude.{◌≡◌, Bool, length, None, IsOk, IfOk, IfErr, ◌↔◌, ◌≤◌};
ghost use Rattle.std.specs.Fn.{FnReturnsAt};
ghost use Rattle.market.specs.declared.refusal.Refusal.TheVariants.{OutOfLimits};
ghost use Rattle.filling.specs.declared.interest.Interest.{Interest};
ghost use Rattle.filling.specs.Totals.{better, customer_at, other_at, contracts};
ghost use Rattle.filling.specs.Mechanisms.{at_least, customer_from, pooled_over, some};
ghost use Rattle.deal.specs.Lines.{Tells};
ghost use Rattle.deal.specs.Levels.{under, best_under};
ghost use Rattle.deal.specs.Answers.{most_lines};

use super::terms::MOST_LINES;
use filling::interest::Interest;
use market::refusal::Refusal;
use std::marker::Model;

// Lines of interest, not too many of them. In a contract they are their list. Their methods: what is asked of them here,
// what comes down to a level in `plans`, dealing in `levels`, a block's price in `block`, crossing in `allocate`.
#[derive(Drop)]
pub(crate) struct Lines<'a> {
    pub lines: &'a [Interest],
}

impl<'a> Model for Lines<'a> {
    ghost use Rattle.std.specs.Prelude.{List, length, ◌≤◌};
    ghost use Rattle.filling.specs.declared.interest.Interest.{Interest};
    ghost use Rattle.deal.specs.Answers.{most_lines};

    ghost Value = { List Interest };

    ghost view = { λ s. s.lines.now };

    ghost invariant = { λ s. length s.lines.now ≤ most_lines };
}

// Whether a line is a Priority Customer's at a level.
pub(crate) fn is_customer_at(line: &Interest, level: i32) -> bool
    ensures { result ≡ customer_at level line.now }
{
    line.gain == level && line.customer
}

// Whether a line is at a level and no customer's.
pub(crate) fn is_other_at(line: &Interest, level: i32) -> bool
    ensures { result ≡ other_at level line.now }
{
    line.gain == level && !line.customer
}

// Whether a gain is below a bound, if there is one.
pub(crate) fn is_under(bound: Option<i32>, gain: i32) -> bool
    ensures { result ≡ under bound gain }
{
    bound.is_none_or(|bound| gain < bound)
}

impl<'a> Lines<'a> {
    // Refused where there are too many.
    pub(crate) fn new(lines: &'a [Interest]) -> Result<Lines<'a>, Refusal>
        ensures few { IsOk result ↔ (length lines.now ≤ most_lines) }
        ensures all { IfOk result (λ those. those ≡ lines.now) }
        ensures many { IfErr result (λ refusal. refusal ≡ OutOfLimits) }
    {
        if lines.len() > MOST_LINES {
            return Err(Refusal::OutOfLimits);
        }
        Ok(Lines { lines })
    }

    // The contracts of the lines that pass a test.
    fn total<F: Fn(&Interest) -> bool>(&self, test: F) -> u32
        requires { F.IsAlwaysCallable test }
        ensures { (p : Interest → Bool) → Tells (FnReturnsAt F.Fn test) p → result ≡ contracts p self.now }
    {
        self.lines
            .iter()
            .filter(|line| test(line))
            .map(|line| line.size)
            .sum()
    }

    // Whether a line passes a test.
    fn any<F: Fn(&Interest) -> bool>(&self, test: F) -> bool
        requires { F.IsAlwaysCallable test }
        ensures { (p : Interest → Bool) → Tells (FnReturnsAt F.Fn test) p → result ≡ some p self.now }
    {
        self.lines.iter().any(test)
    }

    // The contracts of the lines at which an order gains more.
    pub(crate) fn better(&self, gain: i32) -> u32
        ensures { result ≡ contracts (better gain) self.now }
    {
        self.total(|line| line.gain > gain)
    }

    // The contracts of the lines at a gain or better.
    pub(crate) fn at_least(&self, gain: i32) -> u32
        ensures { result ≡ contracts (at_least gain) self.now }
    {
        self.total(|line| line.gain >= gain)
    }

    // The contracts of the customers at a level.
    pub(crate) fn customers_at(&self, level: i32) -> u32
        ensures { result ≡ contracts (customer_at level) self.now }
    {
        self.total(|line| is_customer_at(line, level))
    }

    // The contracts of the others at a level.
    pub(crate) fn others_at(&self, level: i32) -> u32
        ensures { result ≡ contracts (other_at level) self.now }
    {
        self.total(|line| is_other_at(line, level))
    }

    // Whether a customer is at a gain or better.
    pub(crate) fn customer_from(&self, gain: i32) -> bool
        ensures { result ≡ some (customer_from gain) self.now }
    {
        self.any(|line| line.customer && line.gain >= gain)
    }

    // Whether an entry of the pool gains more.
    pub(crate) fn pooled_over(&self, gain: i32) -> bool
        ensures { result ≡ some (pooled_over gain) self.now }
    {
        self.any(|line| line.pooled && line.gain > gain)
    }

    // The best level below a bound.
    pub(crate) fn best_below(&self, bound: Option<i32>) -> Option<i32>
        ensures { result ≡ best_under bound None self.now }
    {
        self.lines
            .iter()
            .map(|line| line.gain)
            .filter(|gain| is_under(bound, *gain))
            .max()
    }
}
