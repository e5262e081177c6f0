// Answers as numbers, and an order to rest.
use market::depth::Depth;
use market::names::{Class, Side};
use market::refusal::Refusal;
use market::resting::Resting;

// 0, or the number of the refusal: what docs/REFUSALS.md says is what is tested.
pub(crate) fn told<T: Drop>(r: Result<T, Refusal>) -> u8 {
    r.err().map_or(0, Refusal::number)
}

// Whether an entry of this price and size stands at a place.
pub(crate) fn shows<D: Depth>(d: &D, place: usize, price: i32, size: u32) -> bool {
    d.entry(place)
        .is_ok_and(|entry| entry.price == price && entry.size == size)
}

// A buy at a price, of class other.
pub(crate) fn buy(number: i64, price: i64, size: i64) -> Resting {
    Resting {
        number,
        side: Side::Buy,
        price,
        size,
        class: Class::Other,
    }
}
