// A file read line by line, with the number of the line that was read last.
ghost use Rattle.std.specs.Prelude.{◌+◌, ◌^◌, ◌≤◌, ◌<◌, ◌≡◌, eqb, length, get_or};
ghost use Rattle.std.specs.Str.{byte};
ghost use Rattle.lines.specs.Lines.{line_at, end_of};
ghost use Rattle.file.specs.Reading.{ReadAs};

use file_model::{LoadFault, LoadRefusal};
use line::{Fields, Malformed};
use lines::Reader;

// A reader over a file, and how many lines it has read.
#[derive(Clone, Copy)]
pub struct Lines<'a> {
    pub reader: Reader<'a>,
    pub read: usize,
    pub ghost fits: { length reader.file.now + 2 < 2 ^ 64 },
    pub ghost within: { reader.at ≤ length reader.file.now },
    pub ghost counted: { read ≤ reader.at },
}

impl<'a> Lines<'a> {
    pub fn new(file: &'a [u8]) -> Lines<'a>
        ensures { (result.reader.file ≡ file.entry) × (result.reader.at ≡ 0) × (result.read ≡ 0) }
    {
        Lines {
            reader: Reader::new(file, 0),
            read: 0,
        }
    }

    pub fn is_at_end(&self) -> bool
        ensures { result ≡ eqb self.now.reader.at (length self.now.reader.file.now) }
    {
        self.reader.is_at_end()
    }

    // Whether the next line begins with F: that byte alone, as the line isn't read yet.
    pub fn begins_with_f(&self) -> bool
        ensures { result ≡ eqb (get_or self.now.reader.file.now self.now.reader.at 0) (byte "F") }
    {
        self.reader.file.get(self.reader.at) == Some(&b'F')
    }

    // The next line's fields, or that it is malformed.
    #[tactic(auto, using(crate::proofs::LinesLeft::line_ends))]
    pub fn next_line(&mut self) -> Result<Fields, LoadFault>
        requires { self.old.reader.at < length self.old.reader.file.now }
        ensures line { ReadAs self.new.read (line_at self.old.reader.file.now self.old.reader.at) result }
        ensures moved { (self.new.reader.file ≡ self.old.reader.file) × (self.new.reader.at ≡ end_of self.old.reader.file.now self.old.reader.at) }
        ensures counted { self.new.read ≡ self.old.read + 1 }
    {
        let malformed = self.next_fault(Malformed.into());
        let line = self.reader.next_line().or(Err(malformed));
        self.read += 1;
        line
    }

    // A fault of the line that was read last. This and the next are two methods, as one that is given the line would be no more than the struct.
    pub fn fault(&self, refusal: LoadRefusal) -> LoadFault
        ensures { (result.refusal ≡ refusal) × (result.line ≡ self.now.read) }
    {
        LoadFault {
            refusal,
            line: self.read,
        }
    }

    // A fault of the next line.
    pub fn next_fault(&self, refusal: LoadRefusal) -> LoadFault
        ensures { (result.refusal ≡ refusal) × (result.line ≡ self.now.read + 1) }
    {
        LoadFault {
            refusal,
            line: self.read + 1,
        }
    }
}
