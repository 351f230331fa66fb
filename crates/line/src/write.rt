// The line for given fields, written into a lent buffer.
ghost use Rattle.std.specs.Prelude.{◌≡◌, ◌^◌, ◌≤◌, Some, length};
ghost use Rattle.std.proofs.lemmas.List.Edits.{sets};
ghost use Rattle.line.specs.Write.{fits, fits_all, bytes_under, write_stated, written_of};

use crate::field::write_field;
use crate::line::{DATE, FIRST, SECOND, THIRD, Uses, uses_for};
use crate::{Fields, LINE_BYTES, Malformed};

// Whether a field of that many columns takes n: it fits, or it is 0 where the field is unused, so n is needed there too. At most 18 columns, so that 10 to
// them fits 64 bits.
pub fn takes(used: bool, columns: u32, n: u64) -> bool
    requires { columns ≤ 18 }
    ensures { result ≡ fits used (10 ^ columns) n }
{
    if used { n < 10u64.pow(columns) } else { n == 0 }
}

// Whether the fields make a line.
#[tactic(auto, unfolding(crate::specs::Write::fits_all))]
pub fn can_write(uses: Uses, f: Fields) -> bool
    ensures { result ≡ fits_all (Some uses) f }
{
    takes(uses.date, DATE.len() as u32, f.date.into())
        && takes(uses.first, FIRST.len() as u32, f.first.into())
        && takes(uses.second, SECOND.len() as u32, f.second.into())
        && takes(uses.third, THIRD.len() as u32, f.third)
}

// Writes the line's 43 bytes.
#[tactic(auto, using(crate::proofs::LineStores::line_stored))]
pub fn put_line(buf: &mut [u8], uses: Uses, f: Fields)
    requires { 43 ≤ length buf.old }
    ensures { buf.new ≡ sets buf.old 0 (bytes_under uses f) }
{
    buf[0] = f.letter;
    write_field(&mut buf[DATE], uses.date, f.date.into());
    write_field(&mut buf[FIRST], uses.first, f.first.into());
    write_field(&mut buf[SECOND], uses.second, f.second.into());
    write_field(&mut buf[THIRD], uses.third, f.third);
    buf[42] = b'\n';
}

// The line in the buffer's first 43 bytes; a refusal leaves the buffer as it was.
#[tactic(auto, using(crate::proofs::LineStores::written_by), unfolding(crate::specs::Write::fits_all))]
pub fn write_line(buf: &mut [u8], f: Fields) -> Result<(), Malformed>
    ensures { (write_stated result ≡ (written_of f buf.old).0) × (buf.new ≡ (written_of f buf.old).1) }
{
    let uses = uses_for(f.letter).ok_or(Malformed)?;
    if buf.len() < LINE_BYTES || !can_write(uses, f) {
        return Err(Malformed);
    }
    put_line(buf, uses, f);
    Ok(())
}
