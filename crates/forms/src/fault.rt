// Why a sheet is not read.
ghost use Rattle.std.specs.Prelude.{◌≡◌, Some};
ghost use Rattle.forms.specs.Faults.{number_of, line_of};
ghost use Rattle.forms.specs.Texts.{stray_text, fault_text};

use crate::trouble::Trouble;
use std::fmt;

// What is wrong with the place of the house form.
#[derive(Clone, Copy, PartialEq, Eq)]
pub enum Stray {
    // another form comes first
    Late,
    // there is a second one
    Again,
    // there is no form at all
    Missing,
}

// The fault of a sheet: its length, a line outside the grammar, or a house form that is not first and once.
#[derive(Clone, Copy, PartialEq, Eq)]
pub enum Fault {
    TooLong,
    Outside { line: u32, trouble: Trouble },
    House { line: u32, stray: Stray },
}

impl Fault {
    // The number of the refusal. By hand: a variant with fields can't be cast to a number.
    pub fn number(&self) -> u32
        ensures { result ≡ number_of self.now }
    {
        match self {
            Fault::TooLong => 20,
            Fault::Outside { .. } => 21,
            Fault::House { .. } => 22,
        }
    }

    // The line at fault, from 1.
    pub fn line(&self) -> u32
        ensures { result ≡ line_of self.now }
    {
        match self {
            Fault::TooLong => 1,
            Fault::Outside { line, .. } | Fault::House { line, .. } => *line,
        }
    }
}

impl fmt::Display for Stray {
    ghost output = { λ x. Some (stray_text x) };

    fn fmt<W: fmt::Write>(&self, f: &mut fmt::Formatter<W>) -> fmt::Result {
        f.write_str(match self {
            Stray::Late => "the first form is no house form",
            Stray::Again => "a second house form",
            Stray::Missing => "there is no house form",
        })
    }
}

impl fmt::Display for Fault {
    ghost output = { λ x. Some (fault_text x) };

    fn fmt<W: fmt::Write>(&self, f: &mut fmt::Formatter<W>) -> fmt::Result {
        match self {
            Fault::TooLong => write!(f, "the sheet has more than 65536 bytes"),
            Fault::Outside { line, trouble } => write!(f, "line {line}, {trouble}"),
            Fault::House { line, stray } => write!(f, "line {line}: {stray}"),
        }
    }
}
