// Filling an order against lines of interest: who gets how many contracts, and the laws of it.
#![tactic(auto)]

ghost use Rattle.filling.specs.Laws.{FilledDown};
ghost use Rattle.filling.specs.Rules.{Facilitation, Solicitation, Block};

pub mod interest;

// The laws of filling down and of the three mechanisms.
fn laws_stand() -> u8
    ensures down { FilledDown }
    ensures facilitation { Facilitation }
    ensures solicitation { Solicitation }
    ensures block { Block }
{
    0
}
