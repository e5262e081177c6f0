// Limits that hold everywhere.

// Prices, in cents.
pub const LOWEST_PRICE: i32 = -1_000_000;

pub const HIGHEST_PRICE: i32 = 1_000_000;

// The most contracts of an entry.
pub const MOST_SIZE: u32 = 1_000_000;

// The most entries that a depth lists.
pub const MOST_ENTRIES: usize = 65_535;
