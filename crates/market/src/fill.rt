// What a settlement writes down.

// Who traded: an entry of the pool by its place, a response by its member and slot, or the contra.
#[derive(Clone, Copy, PartialEq, Eq)]
pub enum Party {
    Entry(usize),
    Response { member: u8, slot: u8 },
    Contra,
}

// So many contracts of a party, at a price in cents.
#[derive(Clone, Copy, PartialEq, Eq)]
pub struct Fill {
    pub party: Party,
    pub price: i32,
    pub contracts: u32,
}

// Why an order is cancelled where nothing executes: a customer stands at its price or better, a better entry stands in
// the pool, or nobody stands at its price or better.
#[derive(Clone, Copy, PartialEq, Eq)]
pub enum Reason {
    CustomerStands,
    BetterStands,
    NoInterest,
}
