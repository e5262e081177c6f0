// What a response, a new or an amended one, brings.
use market::names::Class;

// The fields of a response as a caller hands them in, within their limits or not.
#[derive(Clone, Copy)]
pub struct Responding {
    pub member: i64,
    pub slot: i64,
    pub price: i64,
    pub size: i64,
    pub class: Class,
    pub at: i64,
}
