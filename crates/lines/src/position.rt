// Where the lines of a file begin and end, and a line as a part of the file.
ghost use Rattle.std.specs.Prelude.{◌≡◌};
ghost use Rattle.lines.specs.Lines.{start_of, line_start, line_end, part_in};

use crate::reading::Reader;

// Where a line begins and ends in its file. A type of its own, as a Range isn't copied.
#[derive(Clone, Copy, Debug, Default, PartialEq, Eq)]
pub struct Bounds {
    pub start: usize,
    pub end: usize,
}

// Where so many lines end, counted from the file's start. The loop goes no further than the file's end, whatever the count.
#[tactic(auto, using(crate::proofs::LinePositions::start_next, crate::proofs::LinePositions::start_stays), unfolding(crate::specs::Lines::start_of))]
fn end_of_lines(file: &[u8], count: usize) -> usize
    ensures { result ≡ start_of file.now count }
{
    let mut reader = Reader::new(file, 0);
    for _ in 0..count {
        if reader.is_at_end() {
            break;
        }
        reader.at = reader.line_end();
    }
    reader.at
}

// Where the line of a number begins and ends. File and number stay apart, as callers have them.
#[tactic(auto, unfolding(crate::specs::Lines::line_start, crate::specs::Lines::line_end, crate::specs::Lines::start_of))]
pub fn line_bounds(file: &[u8], number: usize) -> Bounds
    ensures { (result.start ≡ line_start file.now number) × (result.end ≡ line_end file.now number) }
{
    if number == 0 {
        return Bounds { start: 0, end: 0 };
    }
    let start = end_of_lines(file, number - 1);
    let end = Reader::new(file, start).line_end();
    Bounds { start, end }
}

// The line of a number, with its line feed: that part of the file itself.
#[tactic(auto, using(crate::proofs::LineParts::part_within))]
pub fn line_part<'a>(file: &'a [u8], number: usize) -> &'a [u8]
    ensures { result ≡ part_in file.entry (line_start file.now number) (line_end file.now number) }
{
    let Bounds { start, end } = line_bounds(file, number);
    &file[start..end]
}
