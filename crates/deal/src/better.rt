// Better priced interest.
ghost use Rattle.std.specs.Prelude.{◌≡◌};
ghost use Rattle.deal.specs.Answers.{better_answer};

use super::lines::Lines;
use filling::interest::Interest;
use market::refusal::Refusal;

// The contracts of the lines at which an order gains more. Refused where there are too many lines.
pub fn better_total(gain: i32, lines: &[Interest]) -> Result<u32, Refusal>
    ensures { result ≡ better_answer gain lines.now }
{
    let lines = Lines::new(lines)?;
    Ok(lines.better(gain))
}
