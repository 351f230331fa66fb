// The F lines behind an O line, gathered as the two lists that Open takes.
ghost use Rattle.std.specs.Prelude.{◌≡◌};
ghost use Rattle.file.specs.Turns.{saturated, Moves, Gathers};

use crate::reading::Lines;
use arrayvec::ArrayVec;
use book::{Book, Refusal};
use file_model::{LoadFault, LoadRefusal};

// Holders and shares in the order of their lines: two lists, as Open takes them.
#[derive(Drop)]
pub struct Financing {
    pub holders: ArrayVec<u32, { Book::POSITIONS }>,
    pub shares: ArrayVec<u32, { Book::POSITIONS }>,
}

// A share as Open takes it. One that doesn't fit is refused there as the greatest.
pub fn share_of(third: u64) -> u32
    ensures { result ≡ saturated third }
{
    u32::try_from(third).unwrap_or(u32::MAX)
}

// All lines from the next one on that begin with F, up to the first at fault. A loop, as the lines end where the reader finds no F.
#[tactic(auto, using(crate::proofs::FinancingLines::line_of_f))]
pub fn gather(lines: &mut Lines) -> Result<Financing, LoadFault>
    ensures gathered { Gathers lines.old lines.new result }
    ensures moved { Moves lines.old lines.new }
{
    let mut financing = Financing {
        holders: ArrayVec::new(),
        shares: ArrayVec::new(),
    };
    while lines.begins_with_f() {
        let fields = lines.next_line()?;
        if financing.holders.is_full() {
            return Err(lines.fault(LoadRefusal::Call(Refusal::Financing)));
        }
        financing.holders.push(fields.first);
        financing.shares.push(share_of(fields.third));
    }
    Ok(financing)
}
