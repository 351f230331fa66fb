// Settle (document 01): a payment to the account, split among the positions by their unit-days.
#![tactic(auto)]

ghost use Rattle.std.specs.Prelude.{◌≡◌, ℕ, ◌+◌, ◌≤◌, length, take, get_or};
ghost use Rattle.account.specs.Schedule.{last_day};
ghost use Rattle.book_model.specs.Book.{held};
ghost use Rattle.book_model.specs.Called.{stated};
ghost use Rattle.book_model.specs.Invariant.{Sound};
ghost use Rattle.book_model.specs.Outcome.{nothing_taken, no_position, outcome};
ghost use Rattle.book_model.specs.Positions.{paid_from, unit_days_column};
ghost use Rattle.book_model.specs.Settle.{settled};

use arrayvec::ArrayVec;
use book_model::{Book, Called, Cents, Day, Position, ReachedBook, Refusal, Settlement, Taken};

// The most cents of one settlement.
const GREATEST_PAYMENT: Cents = Cents(apportionment::AMOUNT);

// The day of the last settlement, or day 0 where nothing was settled.
#[tactic(auto, using(crate::proofs::LastDay::last_is))]
fn last_settled(settlements: &[Settlement]) -> Day
    ensures { result.0 ≡ last_day 0 settlements.now }
{
    settlements
        .last()
        .map_or(Day(0), |settlement| settlement.day)
}

// The unit-days of positions, by which a payment is split.
fn weights_of(book: &Book) -> ArrayVec<u64, { Book::POSITIONS }>
    ensures { result.items ≡ unit_days_column (held book.now) }
{
    let mut weights = ArrayVec::new();
    for position in book.held() {
        weights.push(u64::from(position.unit_days));
    }
    weights
}

// Each of at most 64 positions is paid its portion, and its unit-days become 0.
fn pay_out(held: &mut [Position], portions: &[u64; Book::POSITIONS])
    requires places { length held.old ≤ 64 }
    requires receipts { (k : ℕ) → (get_or held.old k no_position).received.0 ≤ 24000000000000 }
    requires portions_small { (k : ℕ) → get_or portions.now k 0 ≤ 100000000001 }
    ensures { held.new ≡ paid_from (λ k. get_or portions.now k 0) 0 held.old }
{
    // By index: no proof was found of what a zip over iter_mut leaves.
    for (place, position) in held.iter_mut().enumerate() {
        position.received.0 += portions[place];
        position.unit_days = 0;
    }
}

// The book that comes in is changed in place; a refusal leaves it as it was. It asks for a sound book, and is no call on a reached one itself: there
// the proof that the book is reached would stand at each way out.
#[tactic(auto, unfolding(book_model::specs::Settle::settled))]
fn settle_in(book: &mut Book, cents: Cents) -> Result<Taken, Refusal>
    requires { Sound book.old }
    ensures { outcome nothing_taken result book.new ≡ settled book.old cents }
{
    if !book.opened {
        return Err(Refusal::Unopened);
    }
    if GREATEST_PAYMENT < cents {
        return Err(Refusal::Amount);
    }
    if Book::SETTLEMENTS <= book.settled {
        return Err(Refusal::BookFull);
    }
    let last = last_settled(&book.settlements[..book.settled]);
    if book.today <= last {
        return Err(Refusal::NoDayHeld);
    }
    let after = account::pay(book.account, cents)?;
    let interest = account::interest_of(cents, book.account.due);
    let principal = Cents(cents.0 - interest.0);
    book.account = after;
    let weights = weights_of(book);
    let held = &mut book.positions[..book.count];
    let portions = apportionment::apportion(cents.0, &weights).unwrap();
    pay_out(held, &portions);
    book.settlements[book.settled] = Settlement {
        day: book.today,
        cents,
    };
    book.settled += 1;
    Ok(Taken {
        interest,
        principal,
    })
}

// The same on a reached book that the caller keeps.
pub fn settle_in_place(book: &mut ReachedBook, cents: Cents) -> Result<Taken, Refusal>
    ensures { outcome nothing_taken result book.new.book ≡ settled book.old.book cents }
{
    settle_in(&mut book.book, cents)
}

// By value, the form of every call.
pub fn settle(book: ReachedBook, cents: Cents) -> Called<Taken>
    ensures { stated nothing_taken result ≡ settled book.book cents }
{
    book.call(|book| settle_in_place(book, cents))
}
