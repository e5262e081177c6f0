// Tickets.
ghost use Rattle.std.specs.Prelude.{◌≡◌, true};

use market::refusal::Refusal;

// The right to end one auction of a house. Only a spent one may be let go.
pub struct Ticket {
    pub(crate) house: u16,
    pub(crate) auction: u32,
    pub(crate) spent: bool,
}

impl Drop for Ticket {
    fn drop(self)
        requires { self.spent ≡ true }
    {
        let Ticket {
            house: _,
            auction: _,
            spent: _,
        } = self;
    }
}

// A call that is refused hands its ticket back.
pub struct Returned {
    pub refusal: Refusal,
    pub ticket: Ticket,
}
