// The words and numbers of bracket sheets.
#![tactic(auto)]

pub mod bytes;
pub mod number;
pub mod scan;
pub mod token;
