// What the calls of a book share (document 01, "The book"): the book's type, the empty book, the limits, the answers and their numbers, and a few
// readings of stored lists. A program names the crate `book`, which passes types and calls on. The fields are public for the calls; a book that
// anyone else put together is not known to be `Reached`.
#![tactic(auto)]

mod called;
mod days;
mod positions;
mod pricing;

ghost use Rattle.std.specs.Prelude.{◌≡◌, ◌≤◌, length};
ghost use Rattle.book_model.specs.Book.{empty_book, fresh, held};
ghost use Rattle.book_model.specs.Outcome.{refusal_number};
ghost use Rattle.book_model.specs.declared.Refusal.TheVariants.{Date, Overpaid, Rate};

pub use crate::called::{Called, ReachedBook};
pub use crate::days::count_of;
pub use crate::positions::{find, is_holder};
pub use crate::pricing::daily_rate;
use account::Unreckoned;
pub use account::{Account, Cents, Day, RateOrder, Settlement};
use answers::Numbered;
use calendar::NotADate;
use rates::OverGreatest;

// A difference of money, in whole cents.
#[derive(Clone, Copy, Default)]
pub struct CentsChange(pub i64);

// Share parts: 1,000,000 are the whole right.
#[derive(Clone, Copy, Default, PartialEq, Eq, PartialOrd, Ord)]
pub struct Parts(pub u64);

// A holder's share today, its unit-days since the last settlement and the cash it has received. Unit-days fit 32 bits, beside the holder.
#[derive(Clone, Copy, Default)]
pub struct Position {
    pub holder: u32,
    pub unit_days: u32,
    pub share: Parts,
    pub received: Cents,
}

// One collection right, or none. "It holds first day, term and today; the positions (holder number, share, unit-days, cash received) in order of first
// appearance; the outstanding principal; interest due in cents and a fraction below 10^10; principal and interest paid; settlements (day, cents); and
// rates (first day, i)." "The book carries its settlements and rates with it, by value." The first day is a date. The lists are arrays with counts beside them,
// as document 01 names that form: a book holds everything by value and is copied, which an ArrayVec isn't. `opened` is a flag beside the figures:
// theorems read the figures of any book, and those of an empty one are zeros. Each call and reader tests it by one `if`.
#[derive(Clone, Copy)]
pub struct Book {
    pub opened: bool,
    pub first: u32,
    pub term: Day,
    pub today: Day,
    pub recognised: Cents,
    pub account: Account,
    pub count: usize,
    pub positions: [Position; Book::POSITIONS],
    pub settled: usize,
    pub settlements: [Settlement; Book::SETTLEMENTS],
    pub rated: usize,
    pub rates: [RateOrder; Book::RATES],
}

// Why a call is refused, in document 01's trade words, each with its number in that document's table.
#[derive(Clone, Copy, Debug, PartialEq, Eq)]
pub enum Refusal {
    Unopened = 1,
    AlreadyOpen = 2,
    Date = calendar::NO_DATE as isize,
    Term = 4,
    Amount = 5,
    Rate = rates::OVER as isize,
    Financing = 7,
    Day = 8,
    SettlementPending = 9,
    Holder = 10,
    Share = 11,
    BookFull = 12,
    NoDayHeld = 13,
    Overpaid = 14,
}

impl Numbered for Refusal {
    ghost number = { refusal_number };

    fn number(self) -> u32 {
        self as u32
    }
}

impl From<NotADate> for Refusal {
    ghost from_gives = { λ _ refusal. refusal ≡ Date };

    fn from(_: NotADate) -> Refusal {
        Self::Date
    }
}

impl From<OverGreatest> for Refusal {
    ghost from_gives = { λ _ refusal. refusal ≡ Rate };

    fn from(_: OverGreatest) -> Refusal {
        Self::Rate
    }
}

// A reached book's figures, rates and settlements are in range, so that it can only be overpaid.
impl From<Unreckoned> for Refusal {
    ghost from_gives = { λ _ refusal. refusal ≡ Overpaid };

    fn from(_: Unreckoned) -> Refusal {
        Self::Overpaid
    }
}

// The interest and the principal that a settlement took.
#[derive(Clone, Copy, Default)]
pub struct Taken {
    pub interest: Cents,
    pub principal: Cents,
}

// How a revised rate changed outstanding and interest due.
#[derive(Clone, Copy, Default)]
pub struct Revised {
    pub outstanding: CentsChange,
    pub due: CentsChange,
}

// The position at a place in book order, and how many there are.
#[derive(Clone, Copy, Default)]
pub struct Placed {
    pub count: usize,
    pub position: Position,
}

// Today is a date.
#[derive(Clone, Copy, Default)]
pub struct Totals {
    pub today: u32,
    pub account: Account,
}

impl Position {
    // A holder's new position: its share, and nothing else yet.
    pub fn fresh(holder: u32, share: Parts) -> Position
        ensures { result ≡ fresh holder share.0 }
    {
        Position {
            holder,
            share,
            ..Position::default()
        }
    }
}

impl Book {
    // "An empty book is the same for every caller, and its limits belong to it.": the most positions, settlements and stored rates, and the most days
    // from one settlement to the next.
    pub const POSITIONS: usize = apportionment::POSITIONS;

    pub const SETTLEMENTS: usize = Account::SETTLEMENTS;

    pub const RATES: usize = Account::RATES;

    pub const SETTLEMENT_DAYS: u32 = 92;

    // The parts of the whole right.
    pub const PARTS: u64 = 1000000;

    // The greatest number of a holder.
    pub const GREATEST_HOLDER: u32 = 999999999;

    // The positions in use, to be read: all of them where the count is above their number, as it is in no reached book. Advance and Settle, which change
    // them, cut the array, since a method that lends them for it would have to say what stands behind them. Stored settlements
    // and rates are cut where they are read.
    pub fn held(&self) -> &[Position]
        ensures value { result.now ≡ held self.now }
        ensures few { length result.now ≤ 64 }
    {
        &self.positions[..self.count.min(Book::POSITIONS)]
    }

    // No derived `Default`: tried, and of its values the check doesn't find that they are those of the empty book.
    #[tactic(auto, unfolding(crate::specs::Book::empty_book))]
    pub fn empty() -> Book
        ensures { result ≡ empty_book }
    {
        let positions = [Position::fresh(0, Parts(0)); Book::POSITIONS];
        let settlements = [Settlement::default(); Book::SETTLEMENTS];
        let rates = [RateOrder::default(); Book::RATES];
        Book {
            opened: false,
            first: 0,
            term: Day(0),
            today: Day(0),
            recognised: Cents(0),
            account: Account::opening(Cents(0)),
            count: 0,
            positions,
            settled: 0,
            settlements,
            rated: 0,
            rates,
        }
    }
}
