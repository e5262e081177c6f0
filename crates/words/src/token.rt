// The tokens of a line.

// A word as the part of the sheet that it is, with its line and column from 1.
#[derive(Clone, Copy, PartialEq, Eq)]
pub struct Word<'a> {
    pub bytes: &'a [u8],
    pub line: u32,
    pub column: u32,
}

// What stands next on a line: a bracket or a word, or what ends its reading.
#[derive(Clone, Copy, PartialEq, Eq)]
pub enum Token<'a> {
    // a bracket at this column
    Open(u32),
    Close(u32),
    Word(Word<'a>),
    // a byte at this column that stands in no form
    BadByte(u32),
    // a word of over 16 bytes that begins at this column
    LongWord(u32),
    // the end of the line, at this column
    End(u32),
}
