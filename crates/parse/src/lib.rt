// Reads the forms of bracket sheets, token by token.
#![tactic(auto)]

mod names;
pub mod reader;
pub mod trouble;
