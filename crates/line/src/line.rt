// A line, 42 columns and a line feed, read as its fields.
ghost use Rattle.std.specs.Prelude.{◌≡◌};
ghost use Rattle.line.specs.Line.{uses_of, read_stated, line_of};

use crate::field::read_number;
use crate::{Fields, LINE_BYTES, Malformed};
use std::ops::Range;

// The columns of a line's numbers.
pub const DATE: Range<usize> = 1..9;

pub const FIRST: Range<usize> = 9..18;

pub const SECOND: Range<usize> = 18..27;

pub const THIRD: Range<usize> = 27..42;

// The fields that a known letter uses.
#[derive(Clone, Copy)]
pub struct Uses {
    pub date: bool,
    pub first: bool,
    pub second: bool,
    pub third: bool,
}

// What a letter's lines use; the letter is a byte, as in `Fields`.
#[tactic(auto, unfolding(crate::specs::Line::uses_of))]
pub fn uses_for(letter: u8) -> Option<Uses>
    ensures { result ≡ uses_of letter }
{
    let uses = |date, first, second, third| {
        Some(Uses {
            date,
            first,
            second,
            third,
        })
    };
    match letter {
        b'O' => uses(true, true, true, true),
        b'F' => uses(false, true, false, true),
        b'D' => uses(true, false, false, false),
        b'R' => uses(true, false, false, true),
        b'T' => uses(false, true, true, true),
        b'S' | b'E' => uses(false, false, false, true),
        _ => None,
    }
}

// Any bytes: the fields of a well-formed line, or that it is malformed. Numbers of up to nine columns fit 32 bits. Compiled into its callers, so that
// fields are handed over in registers.
#[tactic(auto, using(crate::proofs::LineReading::line_read), unfolding(crate::specs::Line::line_of))]
#[inline(always)]
pub fn read_line(line: &[u8]) -> Result<Fields, Malformed>
    ensures { read_stated result ≡ line_of line.now }
{
    if line.len() != LINE_BYTES || line[42] != b'\n' {
        return Err(Malformed);
    }
    let letter = line[0];
    let uses = uses_for(letter).ok_or(Malformed)?;
    let date = read_number(&line[DATE], uses.date)? as u32;
    let first = read_number(&line[FIRST], uses.first)? as u32;
    let second = read_number(&line[SECOND], uses.second)? as u32;
    let third = read_number(&line[THIRD], uses.third)?;
    Ok(Fields {
        letter,
        date,
        first,
        second,
        third,
    })
}
