// Writing fills onto a blotter.
ghost use Rattle.std.specs.Prelude.{◌≡◌, ◌+◌, ◌^◌, ◌<◌, ◌≤◌, ◌++◌, length, take, drop};
ghost use Rattle.auction.specs.Settlement.{noted, note_all, total};
ghost use Rattle.auction.specs.Pricing.{paid};

use super::line::Line;
use super::settled::Executed;
use market::fill::Fill;
use market::names::Class;

// The price of each line: its own, the order's for customers and its own for others, or one for all.
// An enum, since a closure could not be handed out of `pricing_of`.
#[derive(Clone, Copy)]
pub(crate) enum Pricing {
    Own,
    CustomersAt(i32),
    AllAt(i32),
}

impl Pricing {
    // The price of a line.
    fn price(self, line: &Line) -> i32
        ensures { result ≡ paid self line.now }
    {
        match self {
            Pricing::CustomersAt(price) if line.class == Class::Customer => price,
            Pricing::AllAt(price) => price,
            Pricing::Own | Pricing::CustomersAt(_) => line.price,
        }
    }
}

// A blotter, and how many of its lines are written. A writer, since the two move together; that the written lines fit is
// required by `executed`, since a ghost field beside a `&mut` is not covered.
#[derive(Drop)]
pub(crate) struct Notes<'a> {
    blotter: &'a mut [Fill],
    at: usize,
}

impl<'a> Notes<'a> {
    // None is written yet.
    pub(crate) fn new(blotter: &'a mut [Fill]) -> Notes<'a>
        ensures same_reference { result.blotter.ghost_name ≡ blotter.entry.ghost_name }
        ensures blotter { result.blotter.now ≡ blotter.old }
        ensures at { result.at ≡ 0 }
    {
        Notes { blotter, at: 0 }
    }

    // Writes a fill behind the others, unless it is of no contracts.
    pub(crate) fn note(&mut self, fill: Fill)
        requires { self.old.at < length self.old.blotter.now }
        ensures same_reference { self.new.blotter.ghost_name ≡ self.old.blotter.ghost_name }
        ensures long { length self.new.blotter.now ≡ length self.old.blotter.now }
        ensures many { self.new.at ≡ self.old.at + length (noted fill.party fill.price fill.contracts) }
        ensures front { take self.new.at self.new.blotter.now ≡ take self.old.at self.old.blotter.now ++ noted fill.party fill.price fill.contracts }
        ensures rest { drop self.new.at self.new.blotter.now ≡ drop self.new.at self.old.blotter.now }
    {
        if fill.contracts > 0 {
            self.blotter[self.at] = fill;
            self.at += 1;
        }
    }

    // Writes the fills of the lines.
    pub(crate) fn note_lines(&mut self, pricing: Pricing, lines: &[Line], fills: &[u32])
        requires long { length fills.now ≡ length lines.now }
        requires room { self.old.at + length lines.now < length self.old.blotter.now }
        ensures same_reference { self.new.blotter.ghost_name ≡ self.old.blotter.ghost_name }
        ensures long { length self.new.blotter.now ≡ length self.old.blotter.now }
        ensures many { self.new.at ≡ self.old.at + length (note_all (paid pricing) lines.now fills.now) }
        ensures few { self.new.at ≤ self.old.at + length lines.now }
        ensures front { take self.new.at self.new.blotter.now ≡ take self.old.at self.old.blotter.now ++ note_all (paid pricing) lines.now fills.now }
        ensures rest { drop self.new.at self.new.blotter.now ≡ drop self.new.at self.old.blotter.now }
    {
        for (line, &contracts) in lines.iter().zip(fills) {
            self.note(Fill {
                party: line.party,
                price: pricing.price(line),
                contracts,
            });
        }
    }

    // What was written.
    pub(crate) fn executed(&self) -> Executed
        requires few { self.now.at ≤ length self.now.blotter.now }
        requires fits { total (take self.now.at self.now.blotter.now) < 2 ^ 32 }
        ensures lines { result.lines ≡ self.now.at }
        ensures total { result.total ≡ total (take self.now.at self.now.blotter.now) }
    {
        Executed {
            lines: self.at,
            total: self.blotter[..self.at]
                .iter()
                .map(|line| line.contracts)
                .sum(),
        }
    }
}
