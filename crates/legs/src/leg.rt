// One leg of a net.
ghost use Rattle.std.specs.Prelude.{◌≤◌};
ghost use Rattle.legs.specs.Limits.{highest_ratio};

use super::legside::LegSide;
use market::names::Side;

pub mod ops;

// How often the leg is bought or sold in the net, and what is bid and offered for it.
#[derive(Clone, Copy)]
pub struct LegQuotes {
    side: Side,
    ratio: u32,
    bid: LegSide,
    offer: LegSide,
    ghost low: { 1 ≤ ratio },
    ghost high: { ratio ≤ highest_ratio },
}
