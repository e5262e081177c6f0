// Why a line is outside the grammar.
ghost use Rattle.std.specs.Prelude.{◌≡◌, Some};
ghost use Rattle.forms.specs.Texts.{expected_text, found_text, trouble_text};

use std::fmt;

// What the reader looked for.
#[derive(Clone, Copy, PartialEq, Eq)]
pub enum Expected {
    Form,
    Name,
    Number,
    Side,
    Class,
    Edge,
    Kind,
    Mechanism,
    Reserve,
    Time,
    At,
    Opening,
    Closing,
    Size,
    Leg,
    LineEnd,
}

// What stood there.
#[derive(Clone, Copy, PartialEq, Eq)]
pub enum Found {
    Opening,
    Closing,
    Word,
    BadByte,
    LongWord,
    LineEnd,
}

// Where a line leaves the grammar: the column, what was looked for there, and what stood there.
#[derive(Clone, Copy, PartialEq, Eq)]
pub struct Trouble {
    pub column: u32,
    pub expected: Expected,
    pub found: Found,
}

impl fmt::Display for Expected {
    ghost output = { λ x. Some (expected_text x) };

    fn fmt<W: fmt::Write>(&self, f: &mut fmt::Formatter<W>) -> fmt::Result {
        f.write_str(match self {
            Expected::Form => "a form or a comment",
            Expected::Name => "the name of a form",
            Expected::Number => "a number",
            Expected::Side => "buy or sell",
            Expected::Class => "customer or other",
            Expected::Edge => "bid or offer",
            Expected::Kind => "series or net",
            Expected::Mechanism => "block, fac or sol",
            Expected::Reserve => "the word reserve",
            Expected::Time => "the word time",
            Expected::At => "the word at",
            Expected::Opening => "an opening bracket",
            Expected::Closing => "a closing bracket",
            Expected::Size => "a size or a closing bracket",
            Expected::Leg => "a leg or a closing bracket",
            Expected::LineEnd => "the end of the line",
        })
    }
}

impl fmt::Display for Found {
    ghost output = { λ x. Some (found_text x) };

    fn fmt<W: fmt::Write>(&self, f: &mut fmt::Formatter<W>) -> fmt::Result {
        f.write_str(match self {
            Found::Opening => "an opening bracket",
            Found::Closing => "a closing bracket",
            Found::Word => "another word",
            Found::BadByte => "a byte that no form has",
            Found::LongWord => "a word of over 16 bytes",
            Found::LineEnd => "the end of the line",
        })
    }
}

impl fmt::Display for Trouble {
    ghost output = { λ x. Some (trouble_text x) };

    fn fmt<W: fmt::Write>(&self, f: &mut fmt::Formatter<W>) -> fmt::Result {
        let Trouble {
            column,
            expected,
            found,
        } = self;
        write!(f, "column {column}: expected {expected}, found {found}")
    }
}
