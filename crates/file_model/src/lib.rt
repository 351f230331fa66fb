// What a load of an order file is (document 01, "Order file"): its answers and their numbers, the definition of a load and what follows from it.
#![tactic(auto)]

ghost use Rattle.std.specs.Prelude.{◌≡◌};
ghost use Rattle.file_model.specs.Load.{refusal_number, line_named};
ghost use Rattle.file_model.specs.Loads.{Loads};
ghost use Rattle.file_model.specs.Examples.{Examples};
ghost use Rattle.file_model.specs.declared.LoadRefusal.TheVariants.{Call, Line};

use answers::Numbered;
use book_model::Refusal;
use line::Malformed;

// Why a file is refused, in document 01's trade words: the file itself, one of its lines, or a call of the book.
#[derive(Clone, Copy, Debug, PartialEq, Eq)]
pub enum LoadRefusal {
    Empty,
    Line,
    Unfinished,
    Call(Refusal),
}

// Its number in document 01's table.
impl Numbered for LoadRefusal {
    ghost number = { refusal_number };

    fn number(self) -> u32 {
        match self {
            LoadRefusal::Empty => 20,
            LoadRefusal::Line => line::MALFORMED,
            LoadRefusal::Unfinished => 22,
            LoadRefusal::Call(refusal) => refusal.number(),
        }
    }
}

impl From<Malformed> for LoadRefusal {
    ghost from_gives = { λ _ refusal. refusal ≡ Line };

    fn from(_: Malformed) -> LoadRefusal {
        Self::Line
    }
}

impl From<Refusal> for LoadRefusal {
    ghost from_gives = { λ call refusal. refusal ≡ Call call };

    fn from(call: Refusal) -> LoadRefusal {
        Self::Call(call)
    }
}

// Why a file is refused, and the number of the line at fault.
#[derive(Clone, Copy, Debug, PartialEq, Eq)]
pub struct LoadFault {
    pub refusal: LoadRefusal,
    pub line: usize,
}

impl Numbered for LoadFault {
    ghost number = { λ fault. refusal_number fault.refusal };

    fn number(self) -> u32 {
        self.refusal.number()
    }
}

// The number of the refused line, 0 where the file is accepted, as C programs get it.
pub fn line_named(answer: Result<usize, LoadFault>) -> usize
    ensures { result ≡ line_named answer }
{
    answer.err().map_or(0, |fault| fault.line)
}

// What holds of every file and book: which book an accepted file leaves, and that a cut-off one is refused. And document 01's example file.
// It does nothing.
pub fn theorems()
    ensures { Loads × Examples }
{}
