// The places of the members: what each holds, and the line in which they stand.
#![tactic(auto)]

mod calls;
pub mod table;
mod turns;
