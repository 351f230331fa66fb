// The readers (document 01): a position by holder or by place, and the totals. They change nothing.
#![tactic(auto)]

ghost use Rattle.std.specs.Prelude.{◌≡◌};
ghost use Rattle.book_model.specs.Outcome.{case_of, no_position, not_placed, no_totals};
ghost use Rattle.book_model.specs.Read.{position_of, position_at, totals_of};

use book_model::{Placed, Position, ReachedBook, Refusal, Totals, find, is_holder};

#[tactic(auto, using(crate::proofs::Held::lookups), unfolding(book_model::specs::Read::position_of))]
pub fn position_of(book: &ReachedBook, holder: u32) -> Result<Position, Refusal>
    ensures { case_of no_position result ≡ position_of book.now.book holder }
{
    let book = &book.book;
    if !book.opened {
        return Err(Refusal::Unopened);
    }
    if !is_holder(holder) {
        return Err(Refusal::Holder);
    }
    let held = book.held();
    let place = find(held, holder).ok_or(Refusal::Holder)?;
    Ok(held[place])
}

// The position at a place in book order, counted from 0.
#[tactic(auto, using(crate::proofs::Held::held_counted), unfolding(book_model::specs::Read::position_at))]
pub fn position_at(book: &ReachedBook, place: usize) -> Result<Placed, Refusal>
    ensures { case_of not_placed result ≡ position_at book.now.book place }
{
    let book = &book.book;
    if !book.opened {
        return Err(Refusal::Unopened);
    }
    let held = book.held();
    let position = *held.get(place).ok_or(Refusal::Holder)?;
    Ok(Placed {
        count: held.len(),
        position,
    })
}

#[tactic(auto, unfolding(book_model::specs::Read::totals_of))]
pub fn totals(book: &ReachedBook) -> Result<Totals, Refusal>
    ensures { case_of no_totals result ≡ totals_of book.now.book }
{
    let book = &book.book;
    if !book.opened {
        return Err(Refusal::Unopened);
    }
    // Today is a date: a right begins by 20991231 and has 6,000 days at most.
    let today = calendar::plus_days(book.first, book.today.0).unwrap_or(0);
    Ok(Totals {
        today,
        account: book.account,
    })
}
