// The verdict on a sheet, and its forms.
ghost use Rattle.std.specs.Prelude.{◌≡◌, cond, length, nat_lt, Ok, Err};
ghost use mathlib.Core.Bool.{beq};
ghost use Rattle.grammar.specs.Reading.{stray};
ghost use Rattle.grammar.specs.Sheets.{longest};
ghost use Rattle.sheet.specs.Lines.{LineBegun, LineChecked, LineRead, LineJudged, LineNoted, unread_line};
ghost use Rattle.sheet.specs.Promises.{Verdict, ReadAs};

use crate::located::{Located, ReadError};
use forms::fault::{Fault, Stray};
use forms::trouble::Trouble;
use parse::reader::Reader;
use parse::trouble::FormError;
use std::alloc::Global;
use words::bytes::Kind;

// The most bytes that a sheet has.
pub const LONGEST: usize = words::scan::LONGEST;

// The fault of a sheet that has no form.
const FORMLESS: Fault = Fault::House {
    line: 1,
    stray: Stray::Missing,
};

// Whether a sheet has too many bytes.
fn too_long(sheet: &[u8]) -> bool
    ensures { result ≡ nat_lt longest (length sheet.now) }
{
    sheet.len() > LONGEST
}

// Moves past spaces, and tells whether the line has no form: it ends there, or a comment begins.
fn is_blank(reader: &mut Reader) -> bool
    ensures { LineBegun result reader.old reader.new }
{
    matches!(reader.spaces(), Kind::LineEnd | Kind::Semicolon)
}

// Passes over a line: nothing, or whether its form is a house form.
fn check_line(reader: &mut Reader) -> Result<Option<bool>, Trouble>
    ensures { LineChecked result reader.old reader.new }
{
    if is_blank(reader) {
        return Ok(None);
    }
    let house = reader.check_form()?;
    reader.end()?;
    Ok(Some(house))
}

// What a line says: nothing, or a form.
// By hand, beside `check_line`, as `note_line` beside `judge_line` and `read` beside `verdict`: judging needs no memory,
// and a trait for what is kept of a form, with its laws, would be longer than what each pair shares.
fn read_line<'a>(reader: &mut Reader<'a>, heap: Global) -> Result<Option<Located<'a>>, FormError>
    ensures { LineRead result reader.old reader.new }
{
    if is_blank(reader) {
        return Ok(None);
    }
    let start = *reader;
    let line = reader.line_number();
    let form = reader.form(heap)?;
    reader.end()?;
    Ok(Some(Located { line, form, start }))
}

// Whether a house form, or another, may stand on this line, where forms stand before it or none does.
fn in_place(house: bool, forms: bool, line: u32) -> Result<(), Fault>
    ensures { result ≡ cond (beq house forms) (Err (Fault.House line (stray forms))) (Ok tt) }
{
    if house == forms {
        let stray = if forms { Stray::Again } else { Stray::Late };
        Err(Fault::House { line, stray })
    } else {
        Ok(())
    }
}

// Judges a line, where forms stand before it or none does; tells whether forms stand before the next.
fn judge_line(reader: &mut Reader, forms: bool) -> Result<bool, Fault>
    ensures { LineJudged result forms reader.old reader.new }
{
    let line = reader.line_number();
    let said = check_line(reader).map_err(|trouble| Fault::Outside { line, trouble })?;
    let Some(house) = said else {
        return Ok(forms);
    };
    in_place(house, forms, line)?;
    Ok(true)
}

// Adds what a line says to the forms that stand before it.
fn note_line<'a>(
    reader: &mut Reader<'a>,
    heap: Global,
    found: &mut Vec<Located<'a>>,
) -> Result<(), ReadError>
    ensures { LineNoted result found.old.items found.new.items reader.old reader.new }
{
    let line = reader.line_number();
    let said = read_line(reader, heap).map_err(|error| unread(error, line))?;
    let Some(form) = said else {
        return Ok(());
    };
    in_place(form.form.is_house(), !found.is_empty(), line)?;
    found.push(form)?;
    Ok(())
}

// Why a line gives no form.
fn unread(error: FormError, line: u32) -> ReadError
    ensures { result ≡ unread_line error line }
{
    match error {
        FormError::Fault(trouble) => ReadError::Fault(Fault::Outside { line, trouble }),
        FormError::Memory => ReadError::Memory,
    }
}

// The verdict on a sheet: accepted, or its fault. It needs no memory.
pub fn verdict(sheet: &[u8]) -> Result<(), Fault>
    ensures { Verdict sheet.now result }
{
    if too_long(sheet) {
        return Err(Fault::TooLong);
    }
    let mut reader = Reader::new(sheet);
    let mut forms = false;
    loop {
        forms = judge_line(&mut reader, forms)?;
        if !reader.next_line() {
            break;
        }
    }
    if forms { Ok(()) } else { Err(FORMLESS) }
}

// The forms of a sheet, or its fault, or want of memory.
pub fn read(heap: Global, sheet: &[u8]) -> Result<Vec<Located<'_>>, ReadError>
    ensures { ReadAs sheet.now result }
{
    if too_long(sheet) {
        return Err(ReadError::Fault(Fault::TooLong));
    }
    let mut reader = Reader::new(sheet);
    let mut found = Vec::new(heap);
    loop {
        note_line(&mut reader, heap, &mut found)?;
        if !reader.next_line() {
            break;
        }
    }
    if found.is_empty() {
        return Err(ReadError::Fault(FORMLESS));
    }
    Ok(found)
}
