// The settlement of one auction: an order against lines of interest.
#![tactic(auto)]

mod blotter;
mod counting;
pub mod limits;
pub mod line;
pub mod order;
mod seats;
pub mod settle;
pub mod settled;
