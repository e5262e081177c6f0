// The lists of a form, and whole forms.
ghost use Rattle.std.specs.Prelude.{◌≡◌, ◌<◌, List, length, Some, Ok, vec_items, Option};
ghost use Rattle.words.specs.Tokens.{Tok};
ghost use Rattle.parse.specs.Parser.{Read, Gave, seen, size_of, leg_of, next_leg_of, items_of, form_of};
ghost use Rattle.forms.specs.Shapes.{shape};
ghost use Rattle.parse.specs.View.{tokens, Built, asked, is_house_of};
ghost use Rattle.std.proofs.Common.{rules};

use super::Reader;
use super::fields::known;
use crate::names::{Begun, Named};
use crate::trouble::{FormError, unexpected};
use forms::form::{Form, Market};
use forms::trouble::{Expected, Trouble};
use market::names::Leg;
use std::alloc::Global;
use words::token::Token;

// What a list is made of.
pub(crate) trait Item: Sized {
    // the next item of a list, or none at its closing bracket
    ghost reads: { List Tok → Read (Option Self) };

    fn next(reader: &mut Reader<'_>) -> Result<Option<Self>, Trouble>
        ensures { Gave result (reads (tokens reader.old)) (tokens reader.new) };

    // an item takes a token at least
    ghost takes: { (ts us : List Tok) (x : Self) → reads ts ≡ Ok (Some x, us) → length us < length ts };
}

impl Item for i64 {
    ghost reads = { size_of };

    ghost takes = { Prim.search rules };

    fn next(reader: &mut Reader<'_>) -> Result<Option<i64>, Trouble> {
        match reader.scan.token() {
            Token::Close(_) => Ok(None),
            Token::Word(word) => known(i64::of_word(word.bytes), word, Expected::Size).map(Some),
            other => Err(unexpected(other, Expected::Size)),
        }
    }
}

impl Item for Leg {
    ghost reads = { next_leg_of };

    ghost takes = { Prim.search rules };

    fn next(reader: &mut Reader<'_>) -> Result<Option<Leg>, Trouble> {
        match reader.scan.token() {
            Token::Close(_) => Ok(None),
            Token::Open(_) => Ok(Some(reader.leg()?)),
            other => Err(unexpected(other, Expected::Leg)),
        }
    }
}

impl<'a> Reader<'a> {
    // A leg behind its opening bracket.
    fn leg(&mut self) -> Result<Leg, Trouble>
        ensures { Gave (seen Some result) (leg_of (tokens self.old)) (tokens self.new) }
    {
        let leg = Leg {
            side: self.value()?,
            ratio: self.value()?,
        };
        self.close()?;
        Ok(leg)
    }

    // The items up to a closing bracket, which are passed over. By hand, beside `list`: one line, and it needs no memory.
    fn skip<T: Item + Drop>(&mut self) -> Result<(), Trouble>
        ensures { Gave result (asked (items_of T.Item.reads (tokens self.old))) (tokens self.new) }
    {
        while T::next(self)?.is_some() {}
        Ok(())
    }

    // The items up to a closing bracket.
    fn list<T: Item + Drop>(&mut self, heap: Global) -> Result<Vec<T>, FormError>
        ensures { Built vec_items result (items_of T.Item.reads (tokens self.old)) (tokens self.new) }
    {
        let mut items = Vec::new(heap);
        while let Some(item) = T::next(self)? {
            items.push(item)?;
        }
        Ok(items)
    }

    // The next form of the line.
    pub fn form(&mut self, heap: Global) -> Result<Form, FormError>
        ensures { Built shape result (form_of (tokens self.old)) (tokens self.new) }
    {
        match self.begin()? {
            Begun::Whole(form) => Ok(form),
            Begun::Net(number) => {
                let market = Market::Net(self.list(heap)?);
                Ok(Form::House { number, market })
            }
            Begun::Quote { leg, edge, price } => {
                let sizes = self.list(heap)?;
                self.close()?;
                Ok(Form::Quote {
                    leg,
                    edge,
                    price,
                    sizes,
                })
            }
        }
    }

    // Passes over the next form of the line, and tells whether it is a house form.
    // By hand, beside `form`: it needs no memory, and a trait for what is kept would be longer than both.
    pub fn check_form(&mut self) -> Result<bool, Trouble>
        ensures { Gave result (is_house_of (form_of (tokens self.old))) (tokens self.new) }
    {
        match self.begin()? {
            Begun::Whole(form) => Ok(form.is_house()),
            Begun::Net(_) => {
                self.skip::<Leg>()?;
                Ok(true)
            }
            Begun::Quote { .. } => {
                self.skip::<i64>()?;
                self.close()?;
                Ok(false)
            }
        }
    }
}
