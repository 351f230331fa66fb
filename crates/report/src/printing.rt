// The lines of a statement, put into a buffer.
ghost use Rattle.std.specs.Prelude.{◌≡◌, ◌+◌, ◌≤◌, ◌++◌, length, drop, OnOk};
ghost use Rattle.std.specs.Io.KnownBytes.{Appends};
ghost use Rattle.std.proofs.lemmas.List.Edits.{sets};
ghost use Rattle.book_model.specs.Book.{held};
ghost use Rattle.report.specs.Statement.{totals_line, position_line, position_lines, refusal_line, book_printed, statement_of, report_stated, report_of};

use crate::{BYTES, Short};
use answers::Numbered;
use book::{Position, ReachedBook, Totals};
use line::write_number;
use std::io;
use std::io::Write;

// The bytes of a B line, an H line and an X line.
pub const TOTALS_BYTES: usize = 81;

pub const POSITION_BYTES: usize = 47;

const REFUSAL_BYTES: usize = 14;

// The B line, at the front.
// By `write_number`: the definitions say of any book what a column holds, of a number too wide its last digits, where `{:>15}` would write it whole. Room for
// a line is asked of a slice, here and below: an array of its bytes would be cut out by each caller.
#[tactic(auto, using(crate::proofs::LineBytes::totals_stored))]
pub fn put_totals(out: &mut [u8], totals: Totals)
    requires { 81 ≤ length out.old }
    ensures { out.new ≡ sets out.old 0 (totals_line totals.today totals.account) }
{
    let account = totals.account;
    out[0] = b'B';
    write_number(&mut out[1..9], totals.today.into());
    write_number(&mut out[9..24], account.outstanding.0);
    write_number(&mut out[24..39], account.due.0);
    write_number(&mut out[39..50], account.fraction);
    write_number(&mut out[50..65], account.principal_paid.0);
    write_number(&mut out[65..80], account.interest_paid.0);
    out[80] = b'\n';
}

// An H line, at the front.
#[tactic(auto, using(crate::proofs::LineBytes::position_stored))]
pub fn put_position(out: &mut [u8], position: Position)
    requires { 47 ≤ length out.old }
    ensures { out.new ≡ sets out.old 0 (position_line position) }
{
    out[0] = b'H';
    write_number(&mut out[1..10], position.holder.into());
    write_number(&mut out[10..19], position.share.0);
    write_number(&mut out[19..31], position.unit_days.into());
    write_number(&mut out[31..46], position.received.0);
    out[46] = b'\n';
}

// The X line, at the front.
#[tactic(auto, using(crate::proofs::LineBytes::refusal_stored))]
pub fn put_refusal(out: &mut [u8], number: u32, line: usize)
    requires { 14 ≤ length out.old }
    ensures { out.new ≡ sets out.old 0 (refusal_line number line) }
{
    out[0] = b'X';
    write_number(&mut out[1..4], number.into());
    write_number(&mut out[4..13], line as u64);
    out[13] = b'\n';
}

// The H lines of a book's positions, behind the B line. It answers how many bytes stand up to their end. By place: what chunks_exact_mut leaves in
// a buffer is not known.
#[tactic(auto, using(crate::proofs::PositionsPut::lines_put), unfolding(crate::specs::Statement::position_lines))]
pub fn put_positions(out: &mut [u8; BYTES], book: &ReachedBook) -> usize
    ensures { (result ≡ 81 + length (position_lines (held book.now.book))) × (out.new ≡ sets out.old 81 (position_lines (held book.now.book))) }
{
    let held = book.book.held();
    for (place, position) in held.iter().enumerate() {
        put_position(&mut out[TOTALS_BYTES + place * POSITION_BYTES..], *position);
    }
    TOTALS_BYTES + held.len() * POSITION_BYTES
}

// The statement of a book. It answers how many bytes it has.
#[tactic(auto, using(crate::proofs::StatementPut::book_put), unfolding(crate::specs::Statement::book_printed))]
pub fn put_book(out: &mut [u8; BYTES], book: &ReachedBook) -> usize
    ensures { (result ≡ length (book_printed book.now.book)) × (out.new ≡ sets out.old 0 (book_printed book.now.book)) }
{
    let Ok(totals) = book::totals(book) else {
        return 0;
    };
    put_totals(out, totals);
    put_positions(out, book)
}

// The statement of a file, loaded on the empty book. It answers how many bytes it has.
#[tactic(auto, using(crate::proofs::StatementPut::statement_put), unfolding(crate::specs::Statement::statement_of, crate::specs::Statement::printed))]
fn put_report(out: &mut [u8; BYTES], file: &[u8]) -> usize
    ensures { (result ≡ length (statement_of file.now)) × (out.new ≡ statement_of file.now ++ drop (length (statement_of file.now)) out.old) }
{
    let mut book = ReachedBook::empty();
    match file::load_in_place(file, &mut book) {
        Ok(_) => put_book(out, &book),
        Err(fault) => {
            put_refusal(out, fault.number(), fault.line);
            REFUSAL_BYTES
        }
    }
}

// The statement of a file at a buffer's start, and how many bytes it has.
#[tactic(auto, unfolding(crate::specs::Statement::report_of))]
pub fn report(file: &[u8], out: &mut [u8]) -> Result<usize, Short>
    ensures { (report_stated result ≡ (report_of file.now out.old).0) × (out.new ≡ (report_of file.now out.old).1) }
{
    let front = out.first_chunk_mut::<BYTES>().ok_or(Short)?;
    Ok(put_report(front, file))
}

// The statement of a file, written out. An Err is the writer's.
pub fn write_report<W: Write>(file: &[u8], out: &mut W) -> io::Result<()>
    ensures { OnOk result (Appends (W.contents out.old) (W.contents out.new) (statement_of file.now)) }
{
    let mut bytes = [0u8; BYTES];
    let count = put_report(&mut bytes, file);
    out.write_all(&bytes[..count])
}
