// What a check of a sheet writes.
ghost use Rattle.std.specs.Prelude.{◌≡◌, map, IfOk, Some, string_bytes};
ghost use Rattle.grammar.specs.Listing.{listing, Retold};
ghost use Rattle.sheet.specs.Lines.{located};
ghost use Rattle.sheet.specs.Reports.{refusal, Reported};

use crate::located::{Located, ReadError};
use crate::reading::{read, verdict};
use forms::fault::Fault;
use std::alloc::{AllocError, Global};
use std::fmt;

// Forms in plain spelling, each on a line of its own.
#[derive(Drop)]
struct Listed<'t, 'a> {
    forms: &'t [Located<'a>],
}

impl<'t, 'a> fmt::Display for Listed<'t, 'a> {
    ghost output = { λ x. Some (listing (map located x.forms.now)) };

    fn fmt<W: fmt::Write>(&self, f: &mut fmt::Formatter<W>) -> fmt::Result {
        for x in self.forms {
            let form = &x.form;
            write!(f, "{form}\n")?;
        }
        Ok(())
    }
}

// Forms in plain spelling, each on a line of its own: a sheet that reads the same.
pub fn spell(heap: Global, forms: &[Located]) -> Result<String, AllocError>
    ensures { IfOk result (λ t. (string_bytes t ≡ listing (map located forms.now)) × Retold (map located forms.now) (string_bytes t)) }
{
    let listed = Listed { forms };
    format!(in heap; "{listed}")
}

// The number and line of a fault, and a comment that says what is wrong.
fn unread(heap: Global, fault: Fault) -> Result<String, AllocError>
    ensures { IfOk result (λ t. string_bytes t ≡ refusal fault) }
{
    let number = fault.number();
    let line = fault.line();
    format!(in heap; "(unread {number} {line})\n; {fault}\n")
}

// The forms of a sheet in plain spelling, or why it is not read.
pub fn report(heap: Global, sheet: &[u8]) -> Result<String, AllocError>
    ensures { IfOk result (λ t. Reported sheet.now (string_bytes t)) }
{
    if let Err(fault) = verdict(sheet) {
        return unread(heap, fault);
    }
    match read(heap, sheet) {
        Ok(forms) => spell(heap, forms.as_slice()),
        Err(ReadError::Fault(fault)) => unread(heap, fault),
        Err(ReadError::Memory) => Err(AllocError),
    }
}
