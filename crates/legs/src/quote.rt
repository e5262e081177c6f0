// A quote of a leg.
ghost use Rattle.std.specs.Prelude.{◌≡◌, ◌≤◌};
ghost use Rattle.legs.specs.Limits.{most_quoted};

use share::Claim;

// A size, with its place in line.
#[derive(Clone, Copy)]
pub struct Quote {
    pub place: u32,
    pub size: u32,
    ghost few: { size ≤ most_quoted },
}

// What an unused place holds. By hand: a struct with a ghost field derives none.
impl Default for Quote {
    ghost is_default = { λ q. (q.place ≡ 0) × (q.size ≡ 0) };

    fn default() -> Quote {
        Quote { place: 0, size: 0 }
    }
}

impl Claim for Quote {
    ghost wanted = { λ q. q.size };

    ghost standing = { λ q. q.place };

    fn size(&self) -> u32 {
        self.size
    }

    fn place(&self) -> u32 {
        self.place
    }
}
