// Sides, edges, legs, kinds, classes and mechanisms.
ghost use Rattle.std.specs.Prelude.{Some};
ghost use Rattle.market.specs.Names.{side_name, edge_name, leg_text, class_name, mechanism_name};

use std::fmt;

#[derive(Clone, Copy, PartialEq, Eq)]
pub enum Side {
    Buy,
    Sell,
}

// Which price of a leg a quote is.
#[derive(Clone, Copy, PartialEq, Eq)]
pub enum Edge {
    Bid,
    Offer,
}

// A leg of a net: how often it is bought or sold in it.
#[derive(Clone, Copy, PartialEq, Eq)]
pub struct Leg {
    pub side: Side,
    pub ratio: i64,
}

// What is traded: one series, or a net of legs.
#[derive(Clone, Copy, PartialEq, Eq)]
pub enum Kind {
    Series,
    Net,
}

// Whose an order is: a Priority Customer's, or anyone else's.
#[derive(Clone, Copy, PartialEq, Eq)]
pub enum Class {
    Customer,
    Other,
}

// How an agency order is crossed.
#[derive(Clone, Copy, PartialEq, Eq)]
pub enum Mechanism {
    Block,
    Facilitation,
    Solicited,
}

impl fmt::Display for Side {
    ghost output = { λ s. Some (side_name s) };

    fn fmt<W: fmt::Write>(&self, f: &mut fmt::Formatter<W>) -> fmt::Result {
        match self {
            Side::Buy => write!(f, "buy"),
            Side::Sell => write!(f, "sell"),
        }
    }
}

impl fmt::Display for Edge {
    ghost output = { λ e. Some (edge_name e) };

    fn fmt<W: fmt::Write>(&self, f: &mut fmt::Formatter<W>) -> fmt::Result {
        match self {
            Edge::Bid => write!(f, "bid"),
            Edge::Offer => write!(f, "offer"),
        }
    }
}

impl fmt::Display for Leg {
    ghost output = { λ l. Some (leg_text l) };

    fn fmt<W: fmt::Write>(&self, f: &mut fmt::Formatter<W>) -> fmt::Result {
        write!(f, "({} {})", self.side, self.ratio)
    }
}

impl fmt::Display for Class {
    ghost output = { λ k. Some (class_name k) };

    fn fmt<W: fmt::Write>(&self, f: &mut fmt::Formatter<W>) -> fmt::Result {
        match self {
            Class::Customer => write!(f, "customer"),
            Class::Other => write!(f, "other"),
        }
    }
}

impl fmt::Display for Mechanism {
    ghost output = { λ m. Some (mechanism_name m) };

    fn fmt<W: fmt::Write>(&self, f: &mut fmt::Formatter<W>) -> fmt::Result {
        match self {
            Mechanism::Block => write!(f, "block"),
            Mechanism::Facilitation => write!(f, "fac"),
            Mechanism::Solicited => write!(f, "sol"),
        }
    }
}
