// What a book lists, and what is taken from it.
ghost use Rattle.std.specs.Prelude.{◌≡◌, ℕ, ◌≤◌, List, [], map, IfOk};
ghost use Rattle.pools.specs.Books.{book_held, listed_orders, fresh_book, taken_book, order_entry};
ghost use Rattle.std.proofs.Common.{arith};
ghost use Rattle.std.proofs.lemmas.List.{length-map};

use super::Book;
use market::depth::{Depth, Pool};
use market::entry::Entry;
use market::lists::at_place;
use market::names::Kind;
use market::refusal::Refusal;
use std::alloc::{AllocError, Global};

// The most orders that rest at a time.
pub const MOST_ORDERS: usize = 48;

impl Book {
    // An empty book.
    pub fn new(heap: Global, kind: Kind) -> Result<Book, AllocError>
        ensures { IfOk result (λ b. book_held b ≡ fresh_book kind) }
    {
        let orders = Vec::with_capacity(heap, MOST_ORDERS)?;
        Ok(Book { kind, orders })
    }
}

impl Depth for Book {
    ghost entries = { λ b. listed_orders (book_held b) };

    ghost limits = { λ x. let n = length-map x.orders.items order_entry in let k = x.few in let o = x.orders.ok in omega arith };

    fn count(&self) -> usize {
        self.orders.len()
    }

    fn entry(&self, place: usize) -> Result<Entry, Refusal> {
        at_place(&self.orders, place).map(|order| order.entry)
    }
}

impl Pool for Book {
    ghost took = { λ b place n c. book_held c ≡ taken_book place n (book_held b) };

    fn take(&mut self, place: usize, n: u32) -> Result<(), Refusal> {
        let entry = self.entry(place)?;
        if !(1..=entry.size).contains(&n) {
            return Err(Refusal::NotTakable);
        }
        let order = &mut self.orders[place - 1];
        order.entry.size -= n;
        Ok(())
    }
}
