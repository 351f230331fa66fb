// Open (document 01): a right is recognised, with its holders and their shares.
#![tactic(auto)]

ghost use Rattle.std.specs.Prelude.{◌≡◌, ◌≤◌, min, ◌&&◌, ◌++◌, false, true, length, drop, sum, eqb, leb};
ghost use Rattle.std.specs.Result.{IfOk, IfErr};
ghost use Rattle.std.specs.List.{list_all};
ghost use Rattle.rates.specs.Rate.{daily_of};
ghost use Rattle.book_model.specs.declared.Book.{Book};
ghost use Rattle.book_model.specs.Book.{empty_book};
ghost use Rattle.general_laws.specs.Members.{distinct};
ghost use Rattle.book_model.specs.Invariant.{Sound};
ghost use Rattle.book_model.specs.Open.{is_share, is_term, is_recognised, is_financing, founded, new_book, opened};
ghost use Rattle.book_model.specs.Outcome.{nothing, accept, refuse, outcome};
ghost use Rattle.book_model.specs.Positions.{is_holder};

use book_model::{
    Account, Book, Called, Cents, Day, Parts, Position, RateOrder, ReachedBook, Refusal, is_holder,
};

// What Open is given. Holders and shares are two lists, the form that document 01 names; the shares stand in the holders' order.
#[derive(Clone, Copy)]
pub struct Opening<'a> {
    pub first: u32,
    pub term: Day,
    pub annual: u64,
    pub cents: Cents,
    pub holders: &'a [u32],
    pub shares: &'a [u32],
}

// The latest date that a right begins on.
const LAST_FIRST_DAY: u32 = 20991231;

// The longest term is the most days that an account is worked out over.
fn is_term(first: u32, term: Day) -> bool
    ensures { result ≡ is_term first term.0 }
{
    (Day(1)..=Account::DAYS).contains(&term) && first <= LAST_FIRST_DAY
}

// The most that a right is recognised with is the most of an account's figures.
fn is_recognised(cents: Cents) -> bool
    ensures { result ≡ is_recognised cents.0 }
{
    (Cents(1)..=Account::CENTS).contains(&cents)
}

// A chain or a recursion stands in a function of its own, as no proof of it was found inside a condition.
fn all_holders(holders: &[u32]) -> bool
    ensures { result ≡ list_all is_holder holders.now }
{
    holders.iter().all(|&holder| is_holder(holder))
}

fn all_distinct(holders: &[u32]) -> bool
    ensures { result ≡ distinct holders.now }
{
    match holders {
        [] => true,
        [holder, rest @ ..] => !rest.contains(holder) && all_distinct(rest),
    }
}

// The total of the shares, or the greatest number where it is above that. As `apportionment` has it of 64-bit weights: one function over both kinds of
// numbers would be generic for these two callers.
fn total_of(shares: &[u32]) -> u64
    ensures { result ≡ min (sum shares.now) 18446744073709551615 }
{
    shares
        .iter()
        .fold(0u64, |total, &share| total.saturating_add(share.into()))
}

fn are_holders(holders: &[u32]) -> bool
    ensures { result ≡ leb 1 (length holders.now) && (leb (length holders.now) 64 && (list_all is_holder holders.now && distinct holders.now)) }
{
    (1..=Book::POSITIONS).contains(&holders.len()) && all_holders(holders) && all_distinct(holders)
}

#[tactic(auto, using(crate::proofs::Shares::none_0))]
fn are_shares(shares: &[u32]) -> bool
    ensures { result ≡ list_all is_share shares.now && eqb (sum shares.now) 1000000 }
{
    !shares.contains(&0) && total_of(shares) == Book::PARTS
}

#[tactic(auto, unfolding(book_model::specs::Open::is_financing))]
fn is_financing(holders: &[u32], shares: &[u32]) -> bool
    ensures { result ≡ is_financing holders.now shares.now }
{
    holders.len() == shares.len() && are_holders(holders) && are_shares(shares)
}

// The positions of the holders, in their order.
fn place_holders(positions: &mut [Position], holders: &[u32], shares: &[u32])
    requires one_length { length holders.now ≡ length shares.now }
    requires room { length holders.now ≤ length positions.old }
    ensures { positions.new ≡ founded holders.now shares.now ++ drop (length holders.now) positions.old }
{
    // By index: no proof was found of what a zip over iter_mut leaves.
    for (i, (&holder, &share)) in holders.iter().zip(shares).enumerate() {
        positions[i] = Position::fresh(holder, Parts(u64::from(share)));
    }
}

// Why a book refuses an opening, or the daily rate of one that it accepts.
#[tactic(auto, using(rates::proofs::Callers::over_tells), unfolding(book_model::specs::Open::opened))]
fn check_opening(book: &Book, opening: Opening) -> Result<u64, Refusal>
    ensures refused { let o = opening.entry in
        IfErr result (λ r. opened book.now o.first o.term o.annual o.cents o.holders.now o.shares.now ≡ refuse nothing book.now r) }
    ensures accepted { let o = opening.entry in
        IfOk result (λ daily. (daily ≡ daily_of o.annual) × (book.now.opened ≡ false) × (is_financing o.holders.now o.shares.now ≡ true)
        × (opened book.now o.first o.term o.annual o.cents o.holders.now o.shares.now ≡ accept nothing (new_book o.first o.term o.annual o.cents o.holders.now o.shares.now))) }
{
    if book.opened {
        return Err(Refusal::AlreadyOpen);
    }
    if !calendar::is_date(opening.first) {
        return Err(Refusal::Date);
    }
    if !is_term(opening.first, opening.term) {
        return Err(Refusal::Term);
    }
    if !is_recognised(opening.cents) {
        return Err(Refusal::Amount);
    }
    let daily = rates::daily_rate(opening.annual)?;
    if !is_financing(opening.holders, opening.shares) {
        return Err(Refusal::Financing);
    }
    Ok(daily)
}

// Sets up a right in an empty book: what stays at 0 is not written anew.
fn set_up(book: &mut Book, opening: Opening, daily: u64)
    requires empty { book.old ≡ empty_book }
    requires financing { is_financing opening.holders.now opening.shares.now ≡ true }
    requires priced { daily ≡ daily_of opening.annual }
    ensures { let o = opening.entry in
        book.new ≡ new_book o.first o.term o.annual o.cents o.holders.now o.shares.now }
{
    book.opened = true;
    book.first = opening.first;
    book.term = opening.term;
    book.recognised = opening.cents;
    book.account = Account::opening(opening.cents);
    place_holders(&mut book.positions, opening.holders, opening.shares);
    book.count = opening.holders.len();
    book.rates[0] = RateOrder {
        first: Day(0),
        annual: opening.annual,
        daily,
    };
    book.rated = 1;
}

// On any book, reached or not: nothing is supposed of it. An open one is refused, and a new book stands in another's place.
pub fn open_any_book(book: &mut Book, opening: Opening) -> Result<(), Refusal>
    ensures { let o = opening.entry in
        outcome nothing result book.new ≡ opened book.old o.first o.term o.annual o.cents o.holders.now o.shares.now }
{
    let daily = check_opening(book, opening)?;
    *book = Book::empty();
    set_up(book, opening, daily);
    Ok(())
}

// On a sound book, which is empty where it isn't open. It is no call on a reached one itself: there the proof that the book is reached would stand at
// each way out.
fn open_in(book: &mut Book, opening: Opening) -> Result<(), Refusal>
    requires { Sound book.old }
    ensures { let o = opening.entry in
        outcome nothing result book.new ≡ opened book.old o.first o.term o.annual o.cents o.holders.now o.shares.now }
{
    let daily = check_opening(book, opening)?;
    set_up(book, opening, daily);
    Ok(())
}

// The same on a reached book that the caller keeps.
pub fn open_book_in_place(book: &mut ReachedBook, opening: Opening) -> Result<(), Refusal>
    ensures { let o = opening.entry in
        outcome nothing result book.new.book ≡ opened book.old.book o.first o.term o.annual o.cents o.holders.now o.shares.now }
{
    open_in(&mut book.book, opening)
}

// What Open is called on by value: any book, as nothing is supposed of it, or a reached one, which is reached again afterwards.
pub trait Openable {
    ghost plain: { Self → Book };

    fn open(&mut self, opening: Opening) -> Result<(), Refusal>
        ensures { let o = opening.entry in
            outcome nothing result (plain self.new) ≡ opened (plain self.old) o.first o.term o.annual o.cents o.holders.now o.shares.now };
}

impl Openable for Book {
    ghost plain = { λ b. b };

    fn open(&mut self, opening: Opening) -> Result<(), Refusal> {
        open_any_book(self, opening)
    }
}

impl Openable for ReachedBook {
    ghost plain = { λ b. b.book };

    fn open(&mut self, opening: Opening) -> Result<(), Refusal> {
        open_book_in_place(self, opening)
    }
}

// By value, the form of every call.
pub fn open_book<B: Openable>(book: B, opening: Opening) -> Called<(), Refusal, B>
    ensures { let o = opening.entry in
        outcome nothing result.answer (B.plain result.book) ≡ opened (B.plain book) o.first o.term o.annual o.cents o.holders.now o.shares.now }
{
    let mut after = book;
    let answer = after.open(opening);
    Called {
        answer,
        book: after,
    }
}
