// Pools and depths: the resting book, two pools as one, the away board, the depth that lists nothing, and the market of a sheet.
#![tactic(auto)]

pub mod board;
pub mod book;
pub mod empty;
pub mod pair;
pub mod sheet;
