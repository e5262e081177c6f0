// A place in a sheet.
mod ops;

ghost use Rattle.std.specs.Prelude.{◌≡◌, ◌+◌, ◌≤◌, length};
ghost use Rattle.words.specs.Place.{line_at, column_at};
ghost use Rattle.words.specs.declared.scan.TheConstants.{LONGEST};

// The most bytes that a sheet has.
pub const LONGEST: usize = 65_536;

// A sheet and the offset of the next byte to read, with its line and column.
#[derive(Clone, Copy)]
pub struct Scanner<'a> {
    sheet: &'a [u8],
    at: usize,
    line: u32,
    column: u32,
    ghost short: { length sheet.now ≤ LONGEST },
    ghost within: { at ≤ length sheet.now },
    ghost row: { line ≡ line_at sheet.now at },
    ghost rowfits: { line ≤ at + 1 },
    ghost col: { column ≡ column_at sheet.now at },
    ghost colfits: { column ≤ at + 1 },
}
