// Loads the files of the input on a book, writes and reads its lines, and prints the answer to each case.
#![tactic(auto)]

use answers::number_of;
use book::ReachedBook;
use book_cases::{put_position, put_totals};
use cases::{Cases, digest, fill};
use file::LoadFault;
use line::{Fields, read_line, write_line};
use std::io;

// The most bytes of the input.
const INPUT: usize = 524288;

// The most bytes of a buffer that a line is written into.
const BUFFER: usize = 100;

// All positions in book order, their number first.
fn put_positions(rt: &impl Print, book: &ReachedBook) {
    let held = book.book.held();
    let _ = println!(rt; "{}", held.len());
    for position in held {
        put_position(rt, *position);
    }
}

// Number, line and count of a load, and the part of the file that it refuses.
fn put_answer(rt: &impl Print, file: &[u8], answer: Result<usize, LoadFault>) {
    let count = answer.unwrap_or(0);
    let _ = print!(rt;
        "{} {} {count} ",
        number_of(answer),
        file::line_named(answer)
    );
    let part = file::part_bounds(file, answer);
    let digest = digest(file::refused_part(file, answer));
    let _ = println!(rt; "{} {} {digest}", part.start, part.end);
}

fn load(rt: &impl Print, book: &mut ReachedBook, file: &[u8]) {
    let loaded = file::load(file, *book);
    *book = loaded.book;
    put_answer(rt, file, loaded.answer);
    put_totals(rt, book);
    put_positions(rt, book);
}

// Writes a line into a buffer, and prints its number and the buffer's digest.
fn write(rt: &impl Print, cases: &mut Cases) {
    let fields = Fields {
        letter: (cases.number() % 256) as u8,
        date: cases.number_u32(),
        first: cases.number_u32(),
        second: cases.number_u32(),
        third: cases.number(),
    };
    let size = cases.count(BUFFER);
    let mut buffer = [0u8; BUFFER];
    fill(&mut buffer);
    let answer = write_line(&mut buffer[..size], fields);
    let _ = println!(rt; "{} {}", number_of(answer), digest(&buffer[..size]));
}

fn read(rt: &impl Print, line: &[u8]) {
    let answer = read_line(line);
    let f = answer.unwrap_or_default();
    let _ = print!(rt; "{} ", number_of(answer));
    let _ = println!(rt;
        "{} {} {} {} {}",
        f.letter, f.date, f.first, f.second, f.third
    );
}

// One case: 0 is a new book, 1 a load, 2 a line written, and any other a line read. The numbers are the input's and told apart once, here, so no
// enum stands between.
fn run_case(rt: &impl Print, book: &mut ReachedBook, cases: &mut Cases) {
    match cases.number() {
        0 => {
            let _ = println!(rt; "0");
            *book = ReachedBook::empty();
        }
        1 => load(rt, book, cases.bytes()),
        2 => write(rt, cases),
        _ => read(rt, cases.bytes()),
    }
}

fn main(rt: HostRuntime) -> io::Result<()> {
    let mut buffer = [0u8; INPUT];
    let mut cases = Cases::read(&mut rt.stdin(), &mut buffer)?;
    let mut book = ReachedBook::empty();
    for _ in 0..cases.number() {
        run_case(&rt, &mut book, &mut cases);
    }
    Ok(())
}
