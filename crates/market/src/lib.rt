// The vocabulary of the market: names, limits, entries, fills, refusals, depths and pools.
#![tactic(auto)]

pub mod depth;
pub mod entry;
pub mod fields;
pub mod fill;
pub mod limits;
pub mod lists;
pub mod names;
pub mod refusal;
pub mod resting;
