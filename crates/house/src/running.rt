// A running auction.
use auction::order::Order;

// Its order, and the moment at which the exposure ends.
#[derive(Clone, Copy)]
pub struct Running {
    pub(crate) order: Order,
    pub(crate) end: i64,
}
