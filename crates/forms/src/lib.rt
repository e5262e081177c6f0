// The forms of bracket sheets, how they are written, and what can be wrong with a sheet.
#![tactic(auto)]

pub mod fault;
pub mod form;
pub mod spelling;
pub mod trouble;
