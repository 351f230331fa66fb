// What the month prints for a person. No contract can say what a `Print` is given.
use answers::Numbered;
use book::{ReachedBook, Refusal, Totals};

pub fn put_refused(rt: &impl Print, refusal: Refusal) {
    let _ = println!(rt; "Refused with {}.", refusal.number());
}

pub fn put_totals(rt: &impl Print, book: &ReachedBook) {
    match book::totals(book) {
        Ok(Totals { today, account }) => {
            let _ = println!(rt; "\nToday                {today:>15}");
            let _ = println!(rt; "Outstanding principal{:>15}", account.outstanding.0);
            let _ = println!(rt; "Interest due         {:>15}", account.due.0);
            let _ = println!(rt; "and its fraction     {:>15}", account.fraction);
            let _ = println!(rt; "Principal paid       {:>15}", account.principal_paid.0);
            let _ = println!(rt; "Interest paid        {:>15}", account.interest_paid.0);
        }
        Err(refusal) => put_refused(rt, refusal),
    }
}

// Each position in book order, in columns as wide as an H line's.
pub fn put_positions(rt: &impl Print, book: &ReachedBook) {
    let _ = println!(rt; "\n   Holder    Share   Unit-days       Received");
    for position in book.book.held() {
        let _ = println!(rt;
            "{:>9}{:>9}{:>12}{:>15}",
            position.holder, position.share.0, position.unit_days, position.received.0
        );
    }
}
