// A book that is settled often. Each call on it has a caller here, beside the one in a load, so that the compiler doesn't put it there.
use book::{Book, Cents, Day, Opening, Parts, ReachedBook};
use std::array;

// The settlements, each of the same book.
const TIMES: u64 = 10000;

// 64 holders with as many parts each finance a right.
fn open_right(book: ReachedBook) -> ReachedBook {
    let holders: [u32; Book::POSITIONS] = array::from_fn(|i| i as u32 + 1);
    let shares = [15625u32; Book::POSITIONS];
    let opening = Opening {
        first: 20140101,
        term: Day(6000),
        annual: 2000,
        cents: Cents(354054743000),
        holders: &holders,
        shares: &shares,
    };
    book::open_book(book, opening).book
}

// A right held for one day. The rate is the one that holds, and no parts are to be transferred: both calls leave the book as it is.
fn held_a_day(book: ReachedBook, none: Parts) -> ReachedBook {
    let opened = open_right(book);
    let held = book::advance(opened, 20140102).book;
    let rated = book::rate(held, 20140101, 2000).book;
    book::transfer(rated, 1, 2, none).book
}

// What the last position has received after a settlement, and the interest that it took.
fn taken_once(book: ReachedBook, cents: Cents) -> u64 {
    let settled = book::settle(book, cents);
    let last = settled.book.book.positions[Book::POSITIONS - 1];
    let interest = settled.answer.map_or(0, |taken| taken.interest.0);
    last.received.0.saturating_add(interest)
}

// The sum over all settlements of one book by the same cents. Of at most 12 digits nothing is left by the division: it keeps the compiler from knowing
// that nothing is transferred, and from leaving the call out.
pub fn taken_often(cents: Cents) -> u64 {
    let none = Parts(cents.0 / 1000000000000);
    let book = held_a_day(ReachedBook::empty(), none);
    (0..TIMES).fold(0, |sum: u64, _| sum.saturating_add(taken_once(book, cents)))
}
