// Moving through a sheet.
ghost use Rattle.std.specs.Prelude.{◌≡◌, ℕ, ◌+◌, ◌-◌, ◌<◌, ◌≤◌, length, take, if◌then◌else◌, ◌==◌, ◌≢◌, nat_eq, nat_lt, slice_index};
ghost use Rattle.words.specs.declared.bytes.Kind.TheVariants.{Space};
ghost use Rattle.words.specs.Bytes.{next, run, behind, Skips};
ghost use Rattle.words.specs.Place.{line_at, column_at, Onto};
ghost use Rattle.words.specs.View.{rest, tokens, words_in, Took, Cut, NextWord, CutWord};

use super::{LONGEST, Scanner};
use crate::bytes::{Kind, kind_of};
use crate::token::{Token, Word};

// Whether a run of a word's bytes is too long for a word.
fn is_long(word: Word) -> bool
    ensures { result ≡ nat_lt 16 (length word.entry.bytes.now) }
{
    word.bytes.len() > 16
}

impl<'a> Scanner<'a> {
    // At the start of a sheet, of which the first LONGEST bytes are read.
    pub fn new(sheet: &'a [u8]) -> Self
        ensures { (result.sheet.now ≡ take LONGEST sheet.now) × (result.at ≡ 0) × (result.line ≡ 1) × (result.column ≡ 1) }
    {
        Scanner {
            sheet: &sheet[..LONGEST.min(sheet.len())],
            at: 0,
            line: 1,
            column: 1,
        }
    }

    // Moves past one byte.
    fn step(&mut self)
        requires { self.old.at < length self.old.sheet.now }
        ensures at { self.new.at ≡ self.old.at + 1 }
        ensures sheet { self.new.sheet.now ≡ self.old.sheet.now }
        ensures line { self.new.line ≡ (if nat_eq (slice_index self.old.sheet.now self.old.at) 10 then self.old.line + 1 else self.old.line) }
        ensures column { self.new.column ≡ (if nat_eq (slice_index self.old.sheet.now self.old.at) 10 then 1 else self.old.column + 1) }
    {
        if self.sheet[self.at] == b'\n' {
            self.line += 1;
            self.column = 1;
        } else {
            self.column += 1;
        }
        self.at += 1;
    }

    // Whether no byte is left.
    fn at_end(&self) -> bool
        ensures { result ≡ (self.now.at == length self.now.sheet.now) }
    {
        self.at == self.sheet.len()
    }

    // The kind of the next byte.
    fn peek(&self) -> Kind
        ensures { result ≡ next (rest self.now) }
    {
        self.sheet
            .get(self.at)
            .map_or(Kind::LineEnd, |b| kind_of(*b))
    }

    // The longest run of a word's bytes from here.
    fn word(&mut self) -> Word<'a>
        ensures at { self.new.at ≡ self.old.at + length result.bytes.now }
        ensures sheet { self.new.sheet.now ≡ self.old.sheet.now }
        ensures line { self.new.line ≡ self.old.line }
        ensures column { self.new.column ≡ self.old.column + length result.bytes.now }
        ensures run { length result.bytes.now ≡ run (rest self.old) }
        ensures bytes { result.bytes.now ≡ take (length result.bytes.now) (rest self.old) }
        ensures place { (result.line ≡ line_at self.old.sheet.now self.old.at) × (result.column ≡ column_at self.old.sheet.now self.old.at) }
        ensures here { (result.line ≡ self.old.line) × (result.column ≡ self.old.column) }
    {
        let start = *self;
        while self.peek() == Kind::Letter {
            self.step();
        }
        Word {
            bytes: &start.sheet[start.at..self.at],
            line: start.line,
            column: start.column,
        }
    }

    // Moves past spaces, and tells what is next.
    pub fn spaces(&mut self) -> Kind
        ensures sheet { self.new.sheet.now ≡ self.old.sheet.now }
        ensures line { self.new.line ≡ self.old.line }
        ensures skips { Skips self.old.column (rest self.old) self.new.column (rest self.new) }
        ensures next { result ≡ next (rest self.new) }
        ensures other { result ≢ Space }
    {
        while self.peek() == Kind::Space {
            self.step();
        }
        self.peek()
    }

    // The next token of the line. Where the reading of the line ends with it, the scanner stays before it.
    pub fn token(&mut self) -> Token<'a>
        ensures sheet { self.new.sheet.now ≡ self.old.sheet.now }
        ensures read { Took result (tokens self.old) (tokens self.new) }
        ensures part { Cut self.old.sheet.now result }
    {
        let next = self.spaces();
        let column = self.column;
        match next {
            Kind::LineEnd => Token::End(column),
            Kind::Open => {
                self.step();
                Token::Open(column)
            }
            Kind::Close => {
                self.step();
                Token::Close(column)
            }
            Kind::Letter => {
                let start = *self;
                let word = self.word();
                if is_long(word) {
                    // put back as it was
                    *self = start;
                    Token::LongWord(column)
                } else {
                    Token::Word(word)
                }
            }
            Kind::Space | Kind::Semicolon | Kind::Other => Token::BadByte(column),
        }
    }

    // The next word of the line, past any brackets before it.
    pub fn next_word(&mut self) -> Option<Word<'a>>
        ensures sheet { self.new.sheet.now ≡ self.old.sheet.now }
        ensures read { NextWord result (words_in (tokens self.old)) (words_in (tokens self.new)) }
        ensures part { CutWord self.old.sheet.now result }
    {
        loop {
            match self.token() {
                Token::Open(_) | Token::Close(_) => {}
                Token::Word(word) => return Some(word),
                Token::BadByte(_) | Token::LongWord(_) | Token::End(_) => return None,
            }
        }
    }

    // The number of the line, from 1.
    pub fn line_number(&self) -> u32
        ensures { result ≡ self.now.line }
    {
        self.line
    }

    // Moves to the start of the next line, or to the end of the sheet where there is none.
    pub fn next_line(&mut self) -> bool
        ensures { (self.new.sheet.now ≡ self.old.sheet.now)
            × Onto result (behind (rest self.old)) (rest self.new) self.old.line self.new.line self.new.column }
    {
        while self.peek() != Kind::LineEnd {
            self.step();
        }
        if self.at_end() {
            return false;
        }
        self.step();
        true
    }
}
