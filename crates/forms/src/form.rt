// The forms of a sheet.
ghost use Rattle.std.specs.Prelude.{◌≡◌};
ghost use Rattle.forms.specs.Shapes.{shape, is_house};

use market::names::{Class, Edge, Leg, Mechanism, Side};
use market::resting::Resting;

// What a house trades: one series, or a net of legs. By hand: None would not say that it is a series.
#[derive(Drop)]
pub enum Market {
    Series,
    Net(Vec<Leg>),
}

// What a member says in a place: a new response, or an amended one.
#[derive(Clone, Copy)]
pub struct Response {
    pub member: i64,
    pub slot: i64,
    pub price: i64,
    pub size: i64,
    pub class: Class,
    pub at: i64,
}

#[derive(Drop)]
pub enum Form {
    House {
        number: i64,
        market: Market,
    },
    Quote {
        leg: i64,
        edge: Edge,
        price: i64,
        sizes: Vec<i64>,
    },
    Rest(Resting),
    Away {
        side: Side,
        price: i64,
    },
    Enter {
        mechanism: Mechanism,
        side: Side,
        size: i64,
        price: i64,
        reserve: i64,
        time: i64,
        at: i64,
    },
    Respond(Response),
    Amend(Response),
    Delete {
        member: i64,
        slot: i64,
        at: i64,
    },
    Settle {
        at: i64,
    },
    Halt {
        at: i64,
    },
}

impl Form {
    pub fn is_house(&self) -> bool
        ensures { result ≡ is_house (shape self.now) }
    {
        matches!(self, Form::House { .. })
    }
}
