// Lines of interest as they are counted.
ghost use Rattle.std.specs.Prelude.{◌≡◌, ◌≤◌, ℕ, pos, false};
ghost use Rattle.market.specs.Limits.{most_size};

// What the order gains at the line's price, its contracts as counted, whether it is a Priority Customer's, and whether
// it is an entry of the pool. Two flags, and no enum of kinds: a line can be both, and each rule asks about one.
#[derive(Clone, Copy, PartialEq, Eq)]
pub struct Interest {
    pub gain: i32,
    pub size: u32,
    pub customer: bool,
    pub pooled: bool,
    ghost few: { size ≤ most_size },
}

// What fills the unused places of an `ArrayVec` of lines. By hand: a struct with a ghost field derives none.
impl Default for Interest {
    ghost is_default = { λ l. (l.gain ≡ pos 0) × (l.size ≡ 0) × (l.customer ≡ false) × (l.pooled ≡ false) };

    fn default() -> Interest {
        Interest {
            gain: 0,
            size: 0,
            customer: false,
            pooled: false,
        }
    }
}
