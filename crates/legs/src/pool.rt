// The legs market of a net.
ghost use Rattle.std.specs.Prelude.{◌≤◌, length};
ghost use Rattle.legs.specs.Limits.{least_legs, most_legs};

use super::leg::LegQuotes;
use arrayvec::ArrayVec;

pub mod ops;

// How many legs a net has at most.
pub const MOST_LEGS: usize = 4;

// The legs, in the order in which they were handed in.
#[derive(Drop)]
pub struct LegsMarket {
    legs: ArrayVec<LegQuotes, MOST_LEGS>,
    ghost low: { least_legs ≤ length legs.items },
    ghost high: { length legs.items ≤ most_legs },
}
