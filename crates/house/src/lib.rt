// The house: one auction at a time, the responses to it, and the ticket that ends it.
#![tactic(auto)]

mod acts;
mod calls;
pub mod entering;
mod fields;
mod making;
mod opening;
mod prices;
pub mod responding;
pub mod running;
pub mod state;
pub mod telling;
pub mod ticket;
pub mod trades;
