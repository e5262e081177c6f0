// Forms where they stand, and why a sheet gives none.
ghost use Rattle.std.specs.Prelude.{◌≡◌};
ghost use Rattle.words.specs.View.{words_in};
ghost use Rattle.parse.specs.View.{tokens};
ghost use Rattle.sheet.specs.Lines.{located};

use forms::fault::Fault;
use forms::form::Form;
use parse::reader::Reader;
use parse::trouble::Failed;

// A form, the number of its line, and a reader before its words.
#[derive(Drop)]
pub struct Located<'a> {
    pub line: u32,
    pub form: Form,
    pub(crate) start: Reader<'a>,
}

impl<'a> Located<'a> {
    // A reader before the words of the form: `next_word` gives each with its place.
    pub fn words(&self) -> Reader<'a>
        ensures { words_in (tokens result) ≡ (located self.now).words }
    {
        self.start
    }
}

// Why a sheet is not read: its fault, or want of memory.
pub type ReadError = Failed<Fault>;
