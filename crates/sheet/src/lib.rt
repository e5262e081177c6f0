// Reads bracket sheets: the verdict on a sheet, its forms, and what a check of it writes.
#![tactic(auto)]

pub mod located;
pub mod reading;
pub mod report;
