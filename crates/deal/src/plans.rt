// What comes down to a level, and how much of it is for those who are no customers.
ghost use Rattle.std.specs.Prelude.{◌≡◌};
ghost use Rattle.filling.specs.Filling.{reaching, left_over};
ghost use Rattle.filling.specs.Mechanisms.{rest, shared};
ghost use Rattle.deal.specs.Plans.{room_of, pot_of};

use super::lines::Lines;
use super::terms::Terms;

impl<'a> Lines<'a> {
    // What better lines leave of an amount.
    fn reaches(&self, amount: u32, level: i32) -> u32
        ensures { result ≡ reaching amount self.now level }
    {
        amount.saturating_sub(self.better(level))
    }

    // What better lines and customers at the gain leave of an order.
    pub(crate) fn rest_of(&self, size: u32, gain: i32) -> u32
        ensures { result ≡ rest size gain self.now }
    {
        self.reaches(size, gain)
            .saturating_sub(self.customers_at(gain))
    }

    // What customers at a level leave of an amount, as far as the others there go.
    fn left_over(&self, amount: u32, level: i32) -> u32
        ensures { result ≡ left_over amount self.now level }
    {
        self.others_at(level).min(self.rest_of(amount, level))
    }

    // What the others at the order's gain share out.
    pub(crate) fn shared_of(&self, terms: &Terms) -> u32
        ensures { result ≡ shared terms.now.size terms.now.gain terms.now.reserved self.now }
    {
        let rest = self.rest_of(terms.size, terms.gain);
        self.others_at(terms.gain)
            .min(rest - rest.min(terms.reserved))
    }
}

// An amount filled down, or an order with contracts reserved at its own gain, whose mechanism is not looked at. An enum,
// and no trait: two structs with two methods each would say no more.
#[derive(Clone, Copy)]
pub(crate) enum Plan {
    Down(u32),
    Facilitated(Terms),
}

impl Plan {
    // What comes down to a level.
    pub(crate) fn room(&self, lines: &Lines, level: i32) -> u32
        ensures { result ≡ room_of self.now lines.now level }
    {
        match self {
            Plan::Down(amount) => lines.reaches(*amount, level),
            Plan::Facilitated(terms) if level < terms.gain => 0,
            Plan::Facilitated(terms) => lines.reaches(terms.size, level),
        }
    }

    // What the others of a level share out.
    pub(crate) fn pot(&self, lines: &Lines, level: i32) -> u32
        ensures { result ≡ pot_of self.now lines.now level }
    {
        match self {
            Plan::Down(amount) => lines.left_over(*amount, level),
            Plan::Facilitated(terms) if level < terms.gain => 0,
            Plan::Facilitated(terms) if terms.gain < level => lines.left_over(terms.size, level),
            Plan::Facilitated(terms) => lines.shared_of(terms),
        }
    }
}
