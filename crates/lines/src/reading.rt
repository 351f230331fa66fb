// A reader, which moves over a lent file line by line.
ghost use Rattle.std.specs.Prelude.{◌≡◌, ◌+◌, ◌≤◌, length, drop, eqb, position, IfOk};
ghost use Rattle.std.specs.Str.{byte};
ghost use Rattle.line.specs.Line.{read_stated, line_of};
ghost use Rattle.lines.specs.Lines.{line_length, line_at, end_of};

use line::{Fields, LINE_BYTES, Malformed, read_line};
use memchr::memchr;

// Where the first line feed is.
#[tactic(auto, using(crate::proofs::LinePositions::first_feed))]
fn feed_in(bytes: &[u8]) -> Option<usize>
    ensures { result ≡ position (λ x. eqb x (byte "\n")) bytes.now }
{
    memchr(b'\n', bytes)
}

// The length of the first line.
#[tactic(auto, using(crate::proofs::LinePositions::length_to_feed, crate::proofs::LinePositions::length_whole))]
fn line_length(bytes: &[u8]) -> usize
    ensures { result ≡ line_length bytes.now }
{
    feed_in(bytes).map_or(bytes.len(), |k| k + 1)
}

// A file and a position in it; a file's lines begin at 0.
#[derive(Clone, Copy)]
pub struct Reader<'a> {
    pub file: &'a [u8],
    pub at: usize,
}

impl<'a> Reader<'a> {
    pub fn new(file: &'a [u8], at: usize) -> Reader<'a>
        ensures { (result.file ≡ file.entry) × (result.at ≡ at) }
    {
        Reader { file, at }
    }

    pub fn is_at_end(&self) -> bool
        ensures { result ≡ eqb self.now.at (length self.now.file.now) }
    {
        self.at == self.file.len()
    }

    // What the file has from the reader on.
    fn rest(&self) -> &'a [u8]
        ensures { result.now ≡ drop self.now.at self.now.file.now }
    {
        self.file.get(self.at..).unwrap_or(&[])
    }

    // The end of the line at the reader: behind the next line feed, or the file's end.
    #[tactic(auto, using(crate::proofs::LinePositions::end_fits))]
    pub(crate) fn line_end(&self) -> usize
        ensures { result ≡ end_of self.now.file.now self.now.at }
    {
        self.at + line_length(self.rest())
    }

    // The line at the reader, read before its end is known: no other length is well-formed, and no column of a well-formed line is a line feed.
    #[tactic(auto, using(crate::proofs::LineColumns::few_refused, crate::proofs::LineColumns::line_in_columns, crate::proofs::LineColumns::read_ends))]
    fn line(&self) -> Result<Fields, Malformed>
        ensures value { read_stated result ≡ line_of (line_at self.now.file.now self.now.at) }
        ensures end { IfOk result (λ f. (end_of self.now.file.now self.now.at ≡ self.now.at + 43) × (self.now.at + 43 ≤ length self.now.file.now)) }
    {
        read_line(self.rest().get(..LINE_BYTES).ok_or(Malformed)?)
    }

    // The line at the reader, which moves behind it. At the file's end the line is empty, so malformed, and the reader stays.
    pub fn next_line(&mut self) -> Result<Fields, Malformed>
        ensures line { read_stated result ≡ line_of (line_at self.old.file.now self.old.at) }
        ensures moved { (self.new.file ≡ self.old.file) × (self.new.at ≡ end_of self.old.file.now self.old.at) }
    {
        let line = self.line();
        self.at = match line {
            Ok(_) => self.at + LINE_BYTES,
            Err(_) => self.line_end(),
        };
        line
    }
}
