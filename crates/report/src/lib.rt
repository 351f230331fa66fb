// The statement of a file (document 01, "Statement program"): the bytes that are printed, in a lent buffer.
#![tactic(auto)]

mod printing;

ghost use Rattle.report.specs.Statements.{Statements};
ghost use Rattle.line.specs.Line.{malformed_number};

pub use crate::printing::{report, write_report};
use crate::printing::{POSITION_BYTES, TOTALS_BYTES};
use answers::Numbered;
use book::Book;

// What every statement fits into: a B line and 64 H lines.
pub const BYTES: usize = TOTALS_BYTES + Book::POSITIONS * POSITION_BYTES;

// The refusal of a buffer that is too short for some statement.
#[derive(Clone, Copy, Debug, PartialEq, Eq)]
pub struct Short;

impl Numbered for Short {
    ghost number = { λ _. malformed_number };

    fn number(self) -> u32 {
        line::MALFORMED
    }
}

// That every statement fits, that no figure of a book is cut, and document 01's example. It does nothing.
pub fn theorems()
    ensures { Statements }
{}
