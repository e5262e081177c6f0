// Moving from line to line and from word to word.
ghost use Rattle.std.specs.Prelude.{◌≡◌, take, ◌≢◌};
ghost use Rattle.words.specs.declared.bytes.Kind.TheVariants.{Space};
ghost use Rattle.words.specs.Bytes.{next, behind, Skips};
ghost use Rattle.words.specs.Place.{Onto};
ghost use Rattle.words.specs.declared.scan.TheConstants.{LONGEST};
ghost use Rattle.words.specs.View.{rest, words_in, NextWord, CutWord};
ghost use Rattle.parse.specs.View.{tokens};

use super::Reader;
use words::bytes::Kind;
use words::scan::Scanner;
use words::token::Word;

// By hand, four of these: of the scanner's methods a reader offers only them, and keeps the tokens to itself.
impl<'a> Reader<'a> {
    // At the start of a sheet, of which the first LONGEST bytes are read.
    pub fn new(sheet: &'a [u8]) -> Self
        ensures { (result.scan.sheet.now ≡ take LONGEST sheet.now) × (result.scan.at ≡ 0) × (result.scan.line ≡ 1) × (result.scan.column ≡ 1) }
    {
        Reader {
            scan: Scanner::new(sheet),
        }
    }

    // The number of the line, from 1.
    pub fn line_number(&self) -> u32
        ensures { result ≡ self.now.scan.line }
    {
        self.scan.line_number()
    }

    // Moves past spaces, and tells what is next.
    pub fn spaces(&mut self) -> Kind
        ensures sheet { self.new.scan.sheet.now ≡ self.old.scan.sheet.now }
        ensures line { self.new.scan.line ≡ self.old.scan.line }
        ensures skips { Skips self.old.scan.column (rest self.old.scan) self.new.scan.column (rest self.new.scan) }
        ensures next { result ≡ next (rest self.new.scan) }
        ensures other { result ≢ Space }
    {
        self.scan.spaces()
    }

    // The next word of the line.
    pub fn next_word(&mut self) -> Option<Word<'a>>
        ensures sheet { self.new.scan.sheet.now ≡ self.old.scan.sheet.now }
        ensures read { NextWord result (words_in (tokens self.old)) (words_in (tokens self.new)) }
        ensures part { CutWord self.old.scan.sheet.now result }
    {
        self.scan.next_word()
    }

    // Moves to the start of the next line, or to the end of the sheet where there is none.
    pub fn next_line(&mut self) -> bool
        ensures { (self.new.scan.sheet.now ≡ self.old.scan.sheet.now)
            × Onto result (behind (rest self.old.scan)) (rest self.new.scan) self.old.scan.line self.new.scan.line self.new.scan.column }
    {
        self.scan.next_line()
    }
}
