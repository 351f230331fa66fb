// Transfer (document 01): parts of a share move from cedent to assignee.
#![tactic(auto)]

ghost use Rattle.std.specs.Prelude.{◌≡◌};
ghost use Rattle.book_model.specs.Called.{stated};
ghost use Rattle.book_model.specs.Invariant.{Sound};
ghost use Rattle.book_model.specs.Outcome.{no_parts, outcome};
ghost use Rattle.book_model.specs.Transfer.{transferred};

use book_model::{Book, Called, Parts, Position, ReachedBook, Refusal, find, is_holder};

// The book that comes in is changed in place; a refusal leaves it as it was. It asks for a sound book, and is no call on a reached one itself: there
// the proof that the book is reached would stand at each way out. The three arguments stay apart, as each is named alone.
#[tactic(auto, using(crate::proofs::Found::lookups), unfolding(book_model::specs::Transfer::transferred, book_model::specs::Transfer::moved))]
fn transfer_in(book: &mut Book, cedent: u32, assignee: u32, parts: Parts) -> Result<Parts, Refusal>
    requires { Sound book.old }
    ensures { outcome no_parts result book.new ≡ transferred book.old cedent assignee parts }
{
    if !book.opened {
        return Err(Refusal::Unopened);
    }
    if !is_holder(cedent) || !is_holder(assignee) || cedent == assignee {
        return Err(Refusal::Holder);
    }
    let held = book.held();
    let from = find(held, cedent).ok_or(Refusal::Holder)?;
    let share = book.positions[from].share;
    // By two comparisons: tried as a range, the tests behind it need a proof too.
    if parts == Parts(0) || share < parts {
        return Err(Refusal::Share);
    }
    let to = find(held, assignee);
    if to.is_none() && book.count == Book::POSITIONS {
        return Err(Refusal::BookFull);
    }
    let remaining = Parts(share.0 - parts.0);
    book.positions[from].share = remaining;
    match to {
        Some(to) => book.positions[to].share.0 += parts.0,
        None => {
            book.positions[book.count] = Position::fresh(assignee, parts);
            book.count += 1;
        }
    }
    Ok(remaining)
}

// The same on a reached book that the caller keeps.
pub fn transfer_in_place(
    book: &mut ReachedBook,
    cedent: u32,
    assignee: u32,
    parts: Parts,
) -> Result<Parts, Refusal>
    ensures { outcome no_parts result book.new.book ≡ transferred book.old.book cedent assignee parts }
{
    transfer_in(&mut book.book, cedent, assignee, parts)
}

// By value, the form of every call.
pub fn transfer(book: ReachedBook, cedent: u32, assignee: u32, parts: Parts) -> Called<Parts>
    ensures { stated no_parts result ≡ transferred book.book cedent assignee parts }
{
    book.call(|book| transfer_in_place(book, cedent, assignee, parts))
}
