// A file loaded on a book, and the part of the file that the answer names.
ghost use Rattle.std.specs.Prelude.{◌≡◌, ◌≢◌, ◌-◌, ◌<◌, eqb, length};
ghost use Rattle.std.specs.Str.{byte};
ghost use Rattle.lines.specs.Lines.{part_in};
ghost use Rattle.file_model.specs.Load.{answered, load_stated, load_of, number_told, line_named, part_start, part_end};
ghost use Rattle.file.specs.Turns.{by_line, stopped, Ends, Moves, Opens, Obeys};

use crate::financing::gather;
use crate::reading::Lines;
use book::{Called, Cents, Day, Opening, Parts, ReachedBook, Refusal};
use file_model::{LoadFault, LoadRefusal};
use line::Fields;
use lines::Bounds;

// A call's refusal is one of the line that made it.
fn by_line<T: Drop>(line: usize, answer: Result<T, Refusal>) -> Result<(), LoadFault>
    ensures { result ≡ by_line line answer }
{
    answer.map(|_| ()).map_err(|refusal| LoadFault {
        refusal: refusal.into(),
        line,
    })
}

// An O line, read last, with the F lines behind it.
#[tactic(auto, using(crate::proofs::CallAnswers::opens))]
fn open(book: &mut ReachedBook, order: Fields, lines: &mut Lines) -> Result<(), LoadFault>
    ensures opened { Opens order.date order.first order.second order.third lines.old lines.new book.old.book book.new.book result }
    ensures moved { Moves lines.old lines.new }
{
    let line = lines.read;
    let financing = gather(lines)?;
    let opening = Opening {
        first: order.date,
        term: Day(order.first),
        annual: order.second.into(),
        cents: Cents(order.third),
        holders: &financing.holders,
        shares: &financing.shares,
    };
    let opened = book::open_book_in_place(book, opening);
    by_line(line, opened)
}

// An E line, read last, with its count of the lines before it.
fn end(count: u64, lines: &Lines) -> Result<usize, LoadFault>
    requires { 0 < lines.now.read }
    ensures { Ends (lines.now.read - 1) count (eqb lines.now.reader.at (length lines.now.reader.file.now)) result }
{
    let before = lines.read - 1;
    if count != before as u64 {
        return Err(lines.fault(LoadRefusal::Unfinished));
    }
    if !lines.is_at_end() {
        return Err(lines.next_fault(LoadRefusal::Unfinished));
    }
    Ok(before)
}

// A line other than E, read last, and the F lines behind an O line. Each call has arguments of its own, so the letters are told apart here: an enum of
// orders would be made from the fields and taken apart in this one function.
#[tactic(auto, using(crate::proofs::CallAnswers::obeys))]
fn obey(book: &mut ReachedBook, order: Fields, lines: &mut Lines) -> Result<(), LoadFault>
    requires { (0 < lines.old.read) × (order.letter ≢ byte "E") }
    ensures obeyed { Obeys order lines.old lines.new book.old.book book.new.book result }
    ensures moved { Moves lines.old lines.new }
{
    let line = lines.read;
    match order.letter {
        b'D' => by_line(line, book::advance_in_place(book, order.date)),
        b'R' => by_line(line, book::rate_in_place(book, order.date, order.third)),
        b'T' => {
            let parts = Parts(order.third);
            let moved = book::transfer_in_place(book, order.first, order.second, parts);
            by_line(line, moved)
        }
        b'S' => by_line(line, book::settle_in_place(book, Cents(order.third))),
        b'O' => open(book, order, lines),
        _ => Err(lines.fault(LoadRefusal::Line)),
    }
}

// The lines of a file in turn, each on the book that the last one left, up to the E line: a file that ends before it is at fault. The E line alone is
// told here, by its byte.
#[tactic(auto, using(crate::proofs::LoadLeft::load_steps))]
fn load_lines(file: &[u8], book: &mut ReachedBook) -> Result<usize, LoadFault>
    ensures { stopped book.old.book result book.new.book ≡ load_of book.old.book file.now }
{
    let mut lines = Lines::new(file);
    if lines.is_at_end() {
        return Err(lines.next_fault(LoadRefusal::Empty));
    }
    while !lines.is_at_end() {
        let order = lines.next_line()?;
        if order.letter == b'E' {
            return end(order.third, &lines);
        }
        obey(book, order, &mut lines)?;
    }
    Err(lines.next_fault(LoadRefusal::Unfinished))
}

// Loads a file on a book that the caller keeps, all or nothing: a refused load leaves the book as it was. The lines change a copy, so that an accepted load
// copies twice and a refused one once; the other way round was slower.
pub fn load_in_place(file: &[u8], book: &mut ReachedBook) -> Result<usize, LoadFault>
    ensures { answered result book.new.book ≡ load_of book.old.book file.now }
{
    let mut after = *book;
    let answer = load_lines(file, &mut after);
    if answer.is_ok() {
        *book = after;
    }
    answer
}

// The same by value.
pub fn load(file: &[u8], book: ReachedBook) -> Called<usize, LoadFault>
    ensures { load_stated result ≡ load_of book.book file.now }
{
    book.call(|book| load_in_place(file, book))
}

// Where the part begins and ends that an answer shows: the refused line, or the empty part at the file's end. A load answers numbers alone, and this call and
// the next are made where somebody wants the part. File and answer stay apart, as callers have them.
#[tactic(auto, using(file_model::proofs::Callers::refusal_not_zero), unfolding(file_model::specs::Load::part_start, file_model::specs::Load::part_end))]
pub fn part_bounds(file: &[u8], answer: Result<usize, LoadFault>) -> Bounds
    ensures { (result.start ≡ part_start file.now (number_told answer) (line_named answer)) × (result.end ≡ part_end file.now (number_told answer) (line_named answer)) }
{
    match answer {
        Ok(_) => Bounds {
            start: file.len(),
            end: file.len(),
        },
        Err(fault) => lines::line_bounds(file, fault.line),
    }
}

// The part itself, of the file that is lent.
#[tactic(auto, using(file_model::proofs::Callers::part_within))]
pub fn refused_part<'a>(file: &'a [u8], answer: Result<usize, LoadFault>) -> &'a [u8]
    ensures { result ≡ part_in file.entry (part_start file.now (number_told answer) (line_named answer)) (part_end file.now (number_told answer) (line_named answer)) }
{
    let Bounds { start, end } = part_bounds(file, answer);
    &file[start..end]
}
