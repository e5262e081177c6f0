// Why a form is not read.
ghost use Rattle.std.specs.Prelude.{◌≡◌};
ghost use Rattle.parse.specs.declared.trouble.Failed.TheVariants as failed;
ghost use Rattle.parse.specs.Troubles.{mark, trouble_at};

use forms::fault::Fault;
use forms::trouble::{Expected, Found, Trouble};
use std::alloc::{AllocError, AllocFailed};
use words::token::Token;

// Why nothing was read: a fault in what stands there, or want of memory. By hand: `?` wants a `From` of it, which cannot
// be written for a type of the library.
#[derive(Clone, Copy)]
pub enum Failed<E> {
    Fault(E),
    Memory,
}

// Why no form was made.
pub type FormError = Failed<Trouble>;

impl From<Trouble> for Failed<Trouble> {
    ghost from_gives = { λ t e. e ≡ failed.Fault t };

    fn from(t: Trouble) -> Self {
        Failed::Fault(t)
    }
}

// By hand, for each fault: one for all would overlap with those of want of memory.
impl From<Fault> for Failed<Fault> {
    ghost from_gives = { λ f e. e ≡ failed.Fault f };

    fn from(f: Fault) -> Self {
        Failed::Fault(f)
    }
}

impl<E> From<AllocError> for Failed<E> {
    ghost from_gives = { λ _ e. e ≡ failed.Memory };

    fn from(_e: AllocError) -> Self {
        Failed::Memory
    }
}

impl<E, T: Drop> From<AllocFailed<T>> for Failed<E> {
    ghost from_gives = { λ _ e. e ≡ failed.Memory };

    fn from(_e: AllocFailed<T>) -> Self {
        Failed::Memory
    }
}

// The trouble with a token that was not expected.
pub fn unexpected(token: Token, expected: Expected) -> Trouble
    ensures { result ≡ trouble_at (mark token.entry) expected }
{
    let (column, found) = match token {
        Token::Open(column) => (column, Found::Opening),
        Token::Close(column) => (column, Found::Closing),
        Token::Word(word) => (word.column, Found::Word),
        Token::BadByte(column) => (column, Found::BadByte),
        Token::LongWord(column) => (column, Found::LongWord),
        Token::End(column) => (column, Found::LineEnd),
    };
    Trouble {
        column,
        expected,
        found,
    }
}
