// What a house trades.

// One series, or a net with the smallest ratio of its legs.
#[derive(Clone, Copy)]
pub enum Trades {
    Series,
    Net { smallest_ratio: i64 },
}
