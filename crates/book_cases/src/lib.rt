// What the programs that run test vectors print of a book: digits between blanks, where `example_month` has columns with heads, for a person, and
// `report` the bytes of a statement. No contract can say what a `Print` is given.
#![tactic(auto)]

use answers::number_of;
use book::{Position, ReachedBook, Totals};

pub fn put_position(rt: &impl Print, position: Position) {
    let _ = println!(rt;
        "{} {} {} {}",
        position.holder, position.share.0, position.unit_days, position.received.0
    );
}

// The number of a book's totals, and the totals: 0 in each for a refusal.
pub fn put_totals(rt: &impl Print, book: &ReachedBook) {
    let read = book::totals(book);
    let Totals { today, account } = read.unwrap_or_default();
    let _ = println!(rt;
        "{} {today} {} {} {} {} {}",
        number_of(read),
        account.outstanding.0,
        account.due.0,
        account.fraction,
        account.principal_paid.0,
        account.interest_paid.0
    );
}
