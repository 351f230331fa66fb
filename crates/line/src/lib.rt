// One line of an order file (document 01, "Order file"): read as its fields, and written from them.
#![tactic(auto)]

mod field;
mod line;
mod write;

ghost use Rattle.line.specs.Line.{refusal_number};
ghost use Rattle.line.specs.RoundTrip.{RoundTrip};
ghost use Rattle.line.specs.Examples.{Examples};

pub use crate::field::{put_number, write_number};
pub use crate::line::read_line;
pub use crate::write::write_line;
use answers::Numbered;

// A line's fields: the letter's byte, the date and the three numbers. One that the letter doesn't use is 0. The letter is a byte and no enum, as C
// programs give and get it and a writer is given any: where one is told apart, b'D' says as much as a name would.
#[derive(Clone, Copy, Default)]
pub struct Fields {
    pub letter: u8,
    pub date: u32,
    pub first: u32,
    pub second: u32,
    pub third: u64,
}

// The refusal of a line that is not in its form, of fields that make no line, and of a buffer that is too short.
#[derive(Clone, Copy, Debug, PartialEq, Eq)]
pub struct Malformed;

// Its number in document 01's table.
pub const MALFORMED: u32 = 21;

impl Numbered for Malformed {
    ghost number = { refusal_number };

    fn number(self) -> u32 {
        MALFORMED
    }
}

// 42 columns and a line feed.
pub const LINE_BYTES: usize = 43;

// That reading and writing undo each other, and the lines of document 01's example file. It does nothing.
#[tactic(auto, using(crate::proofs::LineRoundTrip::round_trip, crate::proofs::Examples::examples))]
pub fn theorems()
    ensures { RoundTrip × Examples }
{}
