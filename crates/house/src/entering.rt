// What an enter brings.
use market::names::{Mechanism, Side};

// The fields of an order as a caller hands them in: contracts, price, reserve in percent, response time and moment, within
// their limits or not.
#[derive(Clone, Copy)]
pub struct Entering {
    pub mechanism: Mechanism,
    pub side: Side,
    pub size: i64,
    pub price: i64,
    pub reserve: i64,
    pub time: i64,
    pub at: i64,
}
