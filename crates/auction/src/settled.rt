// What a settlement answers.
use market::fill::Reason;

// So many blotter lines, with so many contracts in all.
#[derive(Clone, Copy, PartialEq, Eq)]
pub struct Executed {
    pub lines: usize,
    pub total: u32,
}

// What was executed, or why nothing was.
pub type Settled = Result<Executed, Reason>;
