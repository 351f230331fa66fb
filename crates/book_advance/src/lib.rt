// Advance (document 01): days pass, positions gain unit-days and interest accrues.
#![tactic(auto)]

ghost use Rattle.std.specs.Prelude.{◌≡◌, map, ◌+◌, ◌*◌, ◌≤◌, sum};
ghost use Rattle.book_model.specs.Advance.{advanced};
ghost use Rattle.book_model.specs.Book.{held};
ghost use Rattle.book_model.specs.Called.{stated};
ghost use Rattle.book_model.specs.Closed.{days_held};
ghost use Rattle.book_model.specs.Invariant.{Sound};
ghost use Rattle.book_model.specs.Outcome.{no_days, outcome};
ghost use Rattle.book_model.specs.Positions.{shares, unit_days_column};

use book_model::{Book, Called, Day, Position, ReachedBook, Refusal, count_of};

// The unit-days of all positions together: 1,000,000 for each day since the last settlement.
fn unit_days_of(book: &Book) -> u64
    ensures { result ≡ sum (unit_days_column (held book.now)) }
{
    book.held()
        .iter()
        .map(|position| u64::from(position.unit_days))
        .sum()
}

// Every position gains its share in unit-days, for so many days.
fn hold(held: &mut [Position], days: Day)
    requires unit_days_most { sum (unit_days_column held.old) ≤ 92000000 }
    requires shares_most { sum (shares held.old) ≤ 1000000 }
    requires days_most { days.0 ≤ 92 }
    ensures { held.new ≡ map (days_held days.0) held.old }
{
    for position in held.iter_mut() {
        position.unit_days += position.share.0 as u32 * days.0;
    }
}

// The book that comes in is changed in place; a refusal leaves it as it was. It asks for a sound book, and is no call on a reached one itself: there
// the proof that the book is reached would stand at each way out.
#[tactic(auto, using(calendar::proofs::Callers::no_date_tells), unfolding(book_model::specs::Advance::advanced))]
fn advance_in(book: &mut Book, date: u32) -> Result<Day, Refusal>
    requires { Sound book.old }
    ensures { outcome no_days result book.new ≡ advanced book.old date }
{
    if !book.opened {
        return Err(Refusal::Unopened);
    }
    let count = calendar::day_count(date)?;
    let first = count_of(book.first);
    let today = first + book.today.0;
    // By two comparisons, as of a range the check asks that its end plus 1 fits.
    if count <= today || first + book.term.0 < count {
        return Err(Refusal::Day);
    }
    let days = Day(count - today);
    let unit_days = unit_days_of(book);
    let most = Book::PARTS * u64::from(Book::SETTLEMENT_DAYS);
    if most < unit_days + Book::PARTS * u64::from(days.0) {
        return Err(Refusal::SettlementPending);
    }
    hold(&mut book.positions[..book.count], days);
    // No order begins after today, so the last one holds from today on.
    let daily = book.rates[book.rated - 1].daily;
    book.account = account::accrue(book.account, daily, days).unwrap();
    book.today.0 += days.0;
    Ok(days)
}

// The same on a reached book that the caller keeps.
pub fn advance_in_place(book: &mut ReachedBook, date: u32) -> Result<Day, Refusal>
    ensures { outcome no_days result book.new.book ≡ advanced book.old.book date }
{
    advance_in(&mut book.book, date)
}

// By value, the form of every call.
pub fn advance(book: ReachedBook, date: u32) -> Called<Day>
    ensures { stated no_days result ≡ advanced book.book date }
{
    book.call(|book| advance_in_place(book, date))
}
