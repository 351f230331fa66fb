// Positions looked up by holder.
ghost use Rattle.std.specs.Prelude.{◌≡◌};
ghost use Rattle.book_model.specs.Positions.{is_holder, found_in};

use crate::{Book, Position};

// A holder's number is 1 to 999,999,999.
pub fn is_holder(number: u32) -> bool
    ensures { result ≡ is_holder number }
{
    (1..=Book::GREATEST_HOLDER).contains(&number)
}

// Where a holder stands among positions.
pub fn find(positions: &[Position], holder: u32) -> Option<usize>
    ensures { result ≡ found_in positions.now holder }
{
    positions.iter().position(|p| p.holder == holder)
}
