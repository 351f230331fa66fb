// The book of one collection right (document 01, "The book"): everything that a program calls, from the crates that have it. A book goes in by
// value and comes back by value, or stays with the caller (the calls in place); the calls have the arguments that document 01 names, Open's six in
// one struct. That the book equals
// the tally after every list of calls is the theorem of the crate `conservation`.
#![tactic(auto)]

pub use account::{Account, Cents, Day, RateOrder, Settlement};
pub use book_advance::{advance, advance_in_place};
pub use book_model::{
    Book, Called, CentsChange, Parts, Placed, Position, ReachedBook, Refusal, Revised, Taken,
    Totals,
};
pub use book_open::{Openable, Opening, open_any_book, open_book, open_book_in_place};
pub use book_rate::{rate, rate_in_place};
pub use book_read::{position_at, position_of, totals};
pub use book_settle::{settle, settle_in_place};
pub use book_transfer::{transfer, transfer_in_place};
