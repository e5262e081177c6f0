// Orders as a caller hands them in to rest.
use super::names::{Class, Side};

// An order that somebody would rest: the number that it is to stand under, and its fields, within their limits or not.
#[derive(Clone, Copy, PartialEq, Eq)]
pub struct Resting {
    pub number: i64,
    pub side: Side,
    pub price: i64,
    pub size: i64,
    pub class: Class,
}
