// The legs market of a net: implied orders out of the quotes of its legs.
#![tactic(auto)]

pub mod fields;
pub mod leg;
pub mod legside;
pub mod pool;
pub mod quote;
