// Limits of an auction.

// The most percent of a facilitated order that can be reserved for the facilitator.
pub const MOST_RESERVE: u32 = 40;

// Members of the house, counted from 1, and the slots of each.
pub const MOST_MEMBERS: u8 = 16;

pub const MOST_SLOTS: u8 = 4;

// The fewest lines of a blotter: one for each line against the order, and one for the contra.
pub const LEAST_BLOTTER: usize = 129;
