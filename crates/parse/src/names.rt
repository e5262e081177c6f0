// The words that a form is known by.
ghost use Rattle.std.specs.Prelude.{◌≡◌, ℕ, List, Option};
ghost use Rattle.words.specs.Numerals.{read_number};
ghost use Rattle.forms.specs.declared.trouble.Expected.{Expected};
ghost use Rattle.parse.specs.Parser.{read_side, read_class, read_mechanism, read_edge, read_kind, read_name};

use forms::form::Form;
use forms::trouble::Expected;
use market::names::{Class, Edge, Kind, Mechanism, Side};
use words::number::number;

// What a word can stand for.
pub(crate) trait Named: Sized {
    // what a word stands for
    ghost reads: { List ℕ → Option Self };

    // what is looked for where a word stands for nothing
    ghost EXPECTED: { Expected };

    const EXPECTED: Expected;

    fn of_word(word: &[u8]) -> Option<Self>
        ensures { result ≡ reads word.now };
}

impl Named for i64 {
    ghost reads = { read_number };

    ghost EXPECTED = { Expected.Number };

    const EXPECTED: Expected = Expected::Number;

    fn of_word(word: &[u8]) -> Option<i64> {
        number(word)
    }
}

impl Named for Side {
    ghost reads = { read_side };

    ghost EXPECTED = { Expected.Side };

    const EXPECTED: Expected = Expected::Side;

    fn of_word(word: &[u8]) -> Option<Side> {
        match word {
            b"buy" => Some(Side::Buy),
            b"sell" => Some(Side::Sell),
            _ => None,
        }
    }
}

impl Named for Class {
    ghost reads = { read_class };

    ghost EXPECTED = { Expected.Class };

    const EXPECTED: Expected = Expected::Class;

    fn of_word(word: &[u8]) -> Option<Class> {
        match word {
            b"customer" => Some(Class::Customer),
            b"other" => Some(Class::Other),
            _ => None,
        }
    }
}

impl Named for Mechanism {
    ghost reads = { read_mechanism };

    ghost EXPECTED = { Expected.Mechanism };

    const EXPECTED: Expected = Expected::Mechanism;

    fn of_word(word: &[u8]) -> Option<Mechanism> {
        match word {
            b"block" => Some(Mechanism::Block),
            b"fac" => Some(Mechanism::Facilitation),
            b"sol" => Some(Mechanism::Solicited),
            _ => None,
        }
    }
}

impl Named for Edge {
    ghost reads = { read_edge };

    ghost EXPECTED = { Expected.Edge };

    const EXPECTED: Expected = Expected::Edge;

    fn of_word(word: &[u8]) -> Option<Edge> {
        match word {
            b"bid" => Some(Edge::Bid),
            b"offer" => Some(Edge::Offer),
            _ => None,
        }
    }
}

impl Named for Kind {
    ghost reads = { read_kind };

    ghost EXPECTED = { Expected.Kind };

    const EXPECTED: Expected = Expected::Kind;

    fn of_word(word: &[u8]) -> Option<Kind> {
        match word {
            b"series" => Some(Kind::Series),
            b"net" => Some(Kind::Net),
            _ => None,
        }
    }
}

// The first word of a form.
#[derive(Clone, Copy)]
pub(crate) enum Name {
    House,
    Quote,
    Rest,
    Away,
    Enter,
    Respond,
    Amend,
    Delete,
    Settle,
    Halt,
}

impl Named for Name {
    ghost reads = { read_name };

    ghost EXPECTED = { Expected.Name };

    const EXPECTED: Expected = Expected::Name;

    fn of_word(word: &[u8]) -> Option<Name> {
        match word {
            b"house" => Some(Name::House),
            b"quote" => Some(Name::Quote),
            b"rest" => Some(Name::Rest),
            b"away" => Some(Name::Away),
            b"enter" => Some(Name::Enter),
            b"respond" => Some(Name::Respond),
            b"amend" => Some(Name::Amend),
            b"delete" => Some(Name::Delete),
            b"settle" => Some(Name::Settle),
            b"halt" => Some(Name::Halt),
            _ => None,
        }
    }
}

// A form without a list of free length, or what comes before the legs of a net or the sizes of a quote.
#[derive(Drop)]
pub(crate) enum Begun {
    Whole(Form),
    Net(i64),
    Quote { leg: i64, edge: Edge, price: i64 },
}
