// Worked auctions: what an order and its lines come to, as a table of the definitions and as runs of the code.
#![tactic(auto)]

ghost use Rattle.std.specs.List.{AllByRecursion};
ghost use Rattle.worked.specs.Table.{Settles, worked};

#[cfg(test)]
mod auctions;
#[cfg(test)]
mod runs;

// Each auction of the table settles as it says.
pub fn worked_auctions()
    ensures { AllByRecursion Settles worked }
{}
