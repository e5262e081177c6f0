// The house.
ghost use Rattle.std.specs.Prelude.{◌≡◌, ◌+◌, ◌*◌, ◌≤◌, pos, ◌≤ℤ◌};
ghost use Rattle.house.specs.Running.{open_in};

use super::running::Running;
use market::names::Kind;
use places::table::Places;

// A house: what it trades, its last moment, the auction that runs, the places of its members, and its counts.
#[derive(Drop)]
pub struct House {
    pub(crate) number: u16,
    pub(crate) kind: Kind,
    pub(crate) ratio: u32,
    pub(crate) last: i64,
    pub(crate) started: u32,
    pub(crate) running: Option<Running>,
    pub(crate) places: Places,
    pub(crate) entered: u64,
    pub(crate) filled: u64,
    pub(crate) cancelled: u64,
    ghost after: { pos 0 ≤ℤ last },
    ghost some: { 1 ≤ ratio },
    ghost small: { ratio ≤ 10 },
    ghost few: { started ≤ 1000000 },
    ghost bounded: { entered ≤ 1000000 * started },
    ghost balanced: { entered ≡ filled + cancelled + open_in running },
}
