// Who gets how many contracts of an order: the lines level by level, and the contra.
#![tactic(auto)]

pub mod allocate;
pub mod better;
pub mod block;
mod levels;
mod lines;
mod plans;
pub mod terms;
mod turns;
