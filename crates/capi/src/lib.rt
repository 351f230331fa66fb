// What C programs call, from a static library: one file loaded, its statement, one line read or written, a daily rate, and a date plus days. Each
// answers the number of document 01's table, 0 for accepted.
#![tactic(auto)]

ghost use Rattle.std.specs.Prelude.{◌≡◌};
ghost use Rattle.book_model.specs.Book.{empty_book};
ghost use Rattle.calendar.specs.Answers.{sum_of};
ghost use Rattle.line.specs.Line.{line_of};
ghost use Rattle.line.specs.Write.{written_of};
ghost use Rattle.file_model.specs.Load.{load_of, part_start, part_end};
ghost use Rattle.rates.specs.Rate.{rate_of};
ghost use Rattle.report.specs.Statement.{report_of};

use answers::number_of;
use book::ReachedBook;
use line::Fields;

// Loads a file on the empty book: the refused line's number, where the part that it shows starts and ends in the file, and the count of the lines before E.
#[unsafe(no_mangle)]
pub extern "C" fn taborumbra_check(
    file: &[u8],
    line: &mut usize,
    start: &mut usize,
    end: &mut usize,
    count: &mut usize,
) -> u32
    ensures value { result ≡ (load_of empty_book file.now).number }
    ensures line_after { line.new ≡ (load_of empty_book file.now).line }
    ensures start_after { start.new ≡ part_start file.now (load_of empty_book file.now).number (load_of empty_book file.now).line }
    ensures end_after { end.new ≡ part_end file.now (load_of empty_book file.now).number (load_of empty_book file.now).line }
    ensures count_after { count.new ≡ (load_of empty_book file.now).count }
{
    let mut book = ReachedBook::empty();
    let answer = file::load_in_place(file, &mut book);
    let bounds = file::part_bounds(file, answer);
    *line = file::line_named(answer);
    *start = bounds.start;
    *end = bounds.end;
    *count = answer.unwrap_or(0);
    number_of(answer)
}

// The statement of a file at a buffer's start, and its length; a refused file's is its X line, answered with 0 too. A buffer under
// `report::BYTES` is answered with 21 and left as it was.
#[unsafe(no_mangle)]
pub extern "C" fn taborumbra_statement(
    file: &[u8],
    out: &mut [u8],
    statement_bytes: &mut usize,
) -> u32
    ensures value { result ≡ (report_of file.now out.old).0.0 }
    ensures bytes_after { statement_bytes.new ≡ (report_of file.now out.old).0.1 }
    ensures out_after { out.new ≡ (report_of file.now out.old).1 }
{
    let printed = report::report(file, out);
    *statement_bytes = printed.unwrap_or(0);
    number_of(printed)
}

// A line's fields, 0 in each for a malformed line.
#[unsafe(no_mangle)]
pub extern "C" fn taborumbra_read_line(
    line: &[u8],
    letter: &mut u8,
    date: &mut u32,
    first: &mut u32,
    second: &mut u32,
    third: &mut u64,
) -> u32
    ensures value { result ≡ (line_of line.now).0 }
    ensures letter_after { letter.new ≡ (line_of line.now).1.letter }
    ensures date_after { date.new ≡ (line_of line.now).1.date }
    ensures first_after { first.new ≡ (line_of line.now).1.first }
    ensures second_after { second.new ≡ (line_of line.now).1.second }
    ensures third_after { third.new ≡ (line_of line.now).1.third }
{
    let read = line::read_line(line);
    let f = read.unwrap_or_default();
    *letter = f.letter;
    *date = f.date;
    *first = f.first;
    *second = f.second;
    *third = f.third;
    number_of(read)
}

// The line for given fields in a buffer's first 43 bytes. A refusal leaves the buffer as it was.
#[unsafe(no_mangle)]
pub extern "C" fn taborumbra_write_line(
    letter: u8,
    date: u32,
    first: u32,
    second: u32,
    third: u64,
    out: &mut [u8],
) -> u32
    ensures value { result ≡ (written_of (record { letter = letter; date = date; first = first; second = second; third = third }) out.old).0 }
    ensures out_after { out.new ≡ (written_of (record { letter = letter; date = date; first = first; second = second; third = third }) out.old).1 }
{
    let written = line::write_line(
        out,
        Fields {
            letter,
            date,
            first,
            second,
            third,
        },
    );
    number_of(written)
}

// The daily rate of an annual rate, 0 for a refused one.
#[unsafe(no_mangle)]
pub extern "C" fn taborumbra_daily_rate(annual: u64, daily: &mut u64) -> u32
    ensures value { result ≡ (rate_of annual).0 }
    ensures daily_after { daily.new ≡ (rate_of annual).1 }
{
    let rate = rates::daily_rate(annual);
    *daily = rate.unwrap_or(0);
    number_of(rate)
}

// A date plus days, 0 for a refused sum.
#[unsafe(no_mangle)]
pub extern "C" fn taborumbra_plus_days(date: u32, days: u32, sum: &mut u32) -> u32
    ensures value { result ≡ (sum_of date days).0 }
    ensures sum_after { sum.new ≡ (sum_of date days).1 }
{
    let added = calendar::plus_days(date, days);
    *sum = added.unwrap_or(0);
    number_of(added)
}
