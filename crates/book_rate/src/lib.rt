// Rate (document 01): the account becomes what it would be had the new rates held from the start.
#![tactic(auto)]

ghost use Rattle.std.specs.Prelude.{◌≡◌, length, filter, ltb};
ghost use Rattle.account.specs.Invariant.{Fits};
ghost use Rattle.book_model.specs.Called.{stated};
ghost use Rattle.book_model.specs.Invariant.{Sound};
ghost use Rattle.book_model.specs.Outcome.{no_changes, outcome};
ghost use Rattle.book_model.specs.Rate.{changes_of, rated};

use book_model::{
    Account, Book, Called, CentsChange, Day, RateOrder, ReachedBook, Refusal, Revised, count_of,
};

// How many rates start before a day. Counted, 16 at most: what `partition_point` says would depend on their order.
fn count_before(rates: &[RateOrder], day: Day) -> usize
    ensures { result ≡ length (filter (λ o. ltb o.first.0 day.0) rates.now) }
{
    rates.iter().filter(|order| order.first < day).count()
}

// After minus before, of accounts that fit: a type that says it would be made for this one difference.
fn changes(before: Account, after: Account) -> Revised
    requires fits_before { Fits before }
    requires fits_after { Fits after }
    ensures { result ≡ changes_of before after }
{
    Revised {
        outstanding: CentsChange(after.outstanding.0 as i64 - before.outstanding.0 as i64),
        due: CentsChange(after.due.0 as i64 - before.due.0 as i64),
    }
}

// The book that comes in is changed in place; a refusal leaves it as it was. It asks for a sound book, and is no call on a reached one itself: there
// the proof that the book is reached would stand at each way out.
#[tactic(auto, using(calendar::proofs::Callers::no_date_tells, rates::proofs::Callers::over_tells), unfolding(book_model::specs::Rate::rated))]
fn rate_in(book: &mut Book, date: u32, annual: u64) -> Result<Revised, Refusal>
    requires { Sound book.old }
    ensures { outcome no_changes result book.new ≡ rated book.old date annual }
{
    if !book.opened {
        return Err(Refusal::Unopened);
    }
    let count = calendar::day_count(date)?;
    let daily = rates::daily_rate(annual)?;
    let first = count_of(book.first);
    if !(first..=first + book.today.0).contains(&count) {
        return Err(Refusal::Day);
    }
    let day = Day(count - first);
    let place = count_before(&book.rates[..book.rated], day);
    if Book::RATES <= place {
        return Err(Refusal::BookFull);
    }
    // The order replaces the stored rates from its first day on.
    let before = book.rates[place];
    book.rates[place] = RateOrder {
        first: day,
        annual,
        daily,
    };
    let after = match account::replay(
        book.recognised,
        &book.rates[..place + 1],
        &book.settlements[..book.settled],
        book.today,
    ) {
        Ok(after) => after,
        Err(unreckoned) => {
            // A refused order is taken back.
            book.rates[place] = before;
            return Err(unreckoned.into());
        }
    };
    let answer = changes(book.account, after);
    book.account = after;
    book.rated = place + 1;
    Ok(answer)
}

// The same on a reached book that the caller keeps.
pub fn rate_in_place(book: &mut ReachedBook, date: u32, annual: u64) -> Result<Revised, Refusal>
    ensures { outcome no_changes result book.new.book ≡ rated book.old.book date annual }
{
    rate_in(&mut book.book, date, annual)
}

// By value, the form of every call.
pub fn rate(book: ReachedBook, date: u32, annual: u64) -> Called<Revised>
    ensures { stated no_changes result ≡ rated book.book date annual }
{
    book.call(|book| rate_in_place(book, date, annual))
}
