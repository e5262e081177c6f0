// The words and brackets of a form.
ghost use Rattle.std.specs.Prelude.{◌≡◌};
ghost use Rattle.words.specs.View.{placed};
ghost use Rattle.parse.specs.Parser.{Gave, seen, known, word_of, open_of, close_of, end_of, value_of, key_of, keyed_of, moment_of};
ghost use Rattle.parse.specs.View.{tokens};

use super::Reader;
use crate::names::Named;
use crate::trouble::unexpected;
use forms::trouble::{Expected, Found, Trouble};
use words::token::{Token, Word};

// What a word stands for, or the trouble with it.
pub(crate) fn known<T>(value: Option<T>, word: Word, expected: Expected) -> Result<T, Trouble>
    ensures { result ≡ known value (placed word.entry) expected }
{
    value.ok_or(Trouble {
        column: word.column,
        expected,
        found: Found::Word,
    })
}

impl<'a> Reader<'a> {
    // The next token as a word. By hand, here and in the three below: each match names its token in one line, and a test passed
    // in would be no shorter.
    fn word(&mut self, expected: Expected) -> Result<Word<'a>, Trouble>
        ensures { Gave (seen placed result) (word_of expected (tokens self.old)) (tokens self.new) }
    {
        match self.scan.token() {
            Token::Word(word) => Ok(word),
            other => Err(unexpected(other, expected)),
        }
    }

    // An opening bracket.
    pub(crate) fn open(&mut self, expected: Expected) -> Result<(), Trouble>
        ensures { Gave result (open_of expected (tokens self.old)) (tokens self.new) }
    {
        match self.scan.token() {
            Token::Open(_) => Ok(()),
            other => Err(unexpected(other, expected)),
        }
    }

    // A closing bracket.
    pub(crate) fn close(&mut self) -> Result<(), Trouble>
        ensures { Gave result (close_of (tokens self.old)) (tokens self.new) }
    {
        match self.scan.token() {
            Token::Close(_) => Ok(()),
            other => Err(unexpected(other, Expected::Closing)),
        }
    }

    // The end of the line, before which the reader stays.
    pub fn end(&mut self) -> Result<(), Trouble>
        ensures { Gave result (end_of (tokens self.old)) (tokens self.new) }
    {
        match self.scan.token() {
            Token::End(_) => Ok(()),
            other => Err(unexpected(other, Expected::LineEnd)),
        }
    }

    // A word that stands for a value.
    pub(crate) fn value<T: Named>(&mut self) -> Result<T, Trouble>
        ensures { Gave result (value_of T.Named.reads T.Named.EXPECTED (tokens self.old)) (tokens self.new) }
    {
        let word = self.word(T::EXPECTED)?;
        known(T::of_word(word.bytes), word, T::EXPECTED)
    }

    // A word that is given.
    fn key(&mut self, key: &[u8], expected: Expected) -> Result<(), Trouble>
        ensures { Gave result (key_of key.now expected (tokens self.old)) (tokens self.new) }
    {
        let word = self.word(expected)?;
        known((word.bytes == key).then_some(()), word, expected)
    }

    // (at M) and its like.
    pub(crate) fn keyed(&mut self, key: &[u8], expected: Expected) -> Result<i64, Trouble>
        ensures { Gave result (keyed_of key.now expected (tokens self.old)) (tokens self.new) }
    {
        self.open(Expected::Opening)?;
        self.key(key, expected)?;
        let value = self.value()?;
        self.close()?;
        Ok(value)
    }

    pub(crate) fn moment(&mut self) -> Result<i64, Trouble>
        ensures { Gave result (moment_of (tokens self.old)) (tokens self.new) }
    {
        self.keyed(b"at", Expected::At)
    }
}
