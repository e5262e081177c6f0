// The price of a block.
ghost use Rattle.std.specs.Prelude.{◌≡◌, true, ◌&&◌, is_ok, int_lt};
ghost use Rattle.filling.specs.Mechanisms.{executing, block_gain};
ghost use Rattle.deal.specs.Levels.{under};
ghost use Rattle.deal.specs.Answers.{block_answer, BestGain};

use super::lines::{Lines, is_under};
use filling::interest::Interest;
use market::refusal::Refusal;

// Whether a gain is above the best so far and below the ceiling.
fn between(best: i32, ceiling: Option<i32>, gain: i32) -> bool
    ensures { result ≡ (int_lt best gain && under ceiling gain) }
{
    best < gain && is_under(ceiling, gain)
}

impl<'a> Lines<'a> {
    // How many contracts of an order execute at a gain. Reads like `reaches`, but is the smaller of two numbers, where
    // that is what one leaves of another.
    fn executing_at(&self, size: u32, gain: i32) -> u32
        ensures { result ≡ executing size self.now gain }
    {
        size.min(self.at_least(gain))
    }

    // The best gain at which the block executes as fully as at its own; each level is asked about once, since fewer
    // contracts execute from the ceiling on.
    fn climb(&self, size: u32, gain: i32) -> i32
        ensures { result ≡ block_gain size gain self.now }
    {
        let as_many = self.executing_at(size, gain);
        let mut best = gain;
        let mut ceiling: Option<i32> = None;
        // By hand: each line's test goes by both bounds, which a `fold` would carry as a pair.
        for line in self.lines {
            if between(best, ceiling, line.gain) {
                if self.executing_at(size, line.gain) == as_many {
                    best = line.gain;
                } else {
                    ceiling = Some(line.gain);
                }
            }
        }
        best
    }
}

// The best gain at which as many contracts of a block execute as at its own. Refused where there are too many lines.
pub fn block_gain(size: u32, gain: i32, lines: &[Interest]) -> Result<i32, Refusal>
    ensures answer { result ≡ block_answer size gain lines.now }
    ensures best { is_ok result ≡ true → BestGain size gain lines.now (block_gain size gain lines.now) }
{
    let lines = Lines::new(lines)?;
    Ok(lines.climb(size, gain))
}
