// What stands behind the name of a form.
ghost use Rattle.parse.specs.Parser.{Gave, seen, house_of, quote_of, rest_of, away_of, enter_of, response_of, delete_of, body_of, begin_of, closed};
ghost use Rattle.forms.specs.Shapes.{shape};
ghost use Rattle.parse.specs.View.{tokens, begun};

use super::Reader;
use crate::names::{Begun, Name};
use forms::form::{Form, Market, Response};
use forms::trouble::{Expected, Trouble};
use market::names::Kind;
use market::resting::Resting;

impl<'a> Reader<'a> {
    // A form whose closing bracket comes next.
    fn closed(&mut self, form: Form) -> Result<Begun, Trouble>
        ensures { Gave (seen begun result) (closed (shape form) (tokens self.old)) (tokens self.new) }
    {
        self.close()?;
        Ok(Begun::Whole(form))
    }

    fn house(&mut self) -> Result<Begun, Trouble>
        ensures { Gave (seen begun result) (house_of (tokens self.old)) (tokens self.new) }
    {
        let number = self.value()?;
        match self.value::<Kind>()? {
            Kind::Series => self.closed(Form::House {
                number,
                market: Market::Series,
            }),
            Kind::Net => Ok(Begun::Net(number)),
        }
    }

    fn quote(&mut self) -> Result<Begun, Trouble>
        ensures { Gave (seen begun result) (quote_of (tokens self.old)) (tokens self.new) }
    {
        let leg = self.value()?;
        let edge = self.value()?;
        let price = self.value()?;
        self.open(Expected::Opening)?;
        Ok(Begun::Quote { leg, edge, price })
    }

    fn rest(&mut self) -> Result<Begun, Trouble>
        ensures { Gave (seen begun result) (rest_of (tokens self.old)) (tokens self.new) }
    {
        let order = Resting {
            number: self.value()?,
            side: self.value()?,
            price: self.value()?,
            size: self.value()?,
            class: self.value()?,
        };
        self.closed(Form::Rest(order))
    }

    fn away(&mut self) -> Result<Begun, Trouble>
        ensures { Gave (seen begun result) (away_of (tokens self.old)) (tokens self.new) }
    {
        let form = Form::Away {
            side: self.value()?,
            price: self.value()?,
        };
        self.closed(form)
    }

    fn enter(&mut self) -> Result<Begun, Trouble>
        ensures { Gave (seen begun result) (enter_of (tokens self.old)) (tokens self.new) }
    {
        let form = Form::Enter {
            mechanism: self.value()?,
            side: self.value()?,
            size: self.value()?,
            price: self.value()?,
            reserve: self.keyed(b"reserve", Expected::Reserve)?,
            time: self.keyed(b"time", Expected::Time)?,
            at: self.moment()?,
        };
        self.closed(form)
    }

    fn response(&mut self) -> Result<Response, Trouble>
        ensures { Gave result (response_of (tokens self.old)) (tokens self.new) }
    {
        Ok(Response {
            member: self.value()?,
            slot: self.value()?,
            price: self.value()?,
            size: self.value()?,
            class: self.value()?,
            at: self.moment()?,
        })
    }

    fn delete(&mut self) -> Result<Begun, Trouble>
        ensures { Gave (seen begun result) (delete_of (tokens self.old)) (tokens self.new) }
    {
        let form = Form::Delete {
            member: self.value()?,
            slot: self.value()?,
            at: self.moment()?,
        };
        self.closed(form)
    }

    fn body(&mut self, name: Name) -> Result<Begun, Trouble>
        ensures { Gave (seen begun result) (body_of name (tokens self.old)) (tokens self.new) }
    {
        match name {
            Name::House => self.house(),
            Name::Quote => self.quote(),
            Name::Rest => self.rest(),
            Name::Away => self.away(),
            Name::Enter => self.enter(),
            Name::Respond => {
                let response = self.response()?;
                self.closed(Form::Respond(response))
            }
            Name::Amend => {
                let response = self.response()?;
                self.closed(Form::Amend(response))
            }
            Name::Delete => self.delete(),
            Name::Settle => {
                let at = self.moment()?;
                self.closed(Form::Settle { at })
            }
            Name::Halt => {
                let at = self.moment()?;
                self.closed(Form::Halt { at })
            }
        }
    }

    // A form up to its end, or up to its list of legs or sizes.
    pub(crate) fn begin(&mut self) -> Result<Begun, Trouble>
        ensures { Gave (seen begun result) (begin_of (tokens self.old)) (tokens self.new) }
    {
        self.open(Expected::Form)?;
        let name = self.value()?;
        self.body(name)
    }
}
