// Prints for each year from 1999 to 2200 how many of its numbers are dates, and a digest of all numbers so far; then the answers to the cases of the
// input.
#![tactic(auto)]

ghost use Rattle.std.specs.Prelude.{◌≤◌};

use answers::number_of;
use cases::{Cases, mixed};
use std::io;

// The most bytes of the input.
const INPUT: usize = 65536;

// How many of a year's numbers so far are dates, and the digest of all numbers so far.
#[derive(Clone, Copy)]
struct Tally {
    count: u64,
    digest: u64,
}

// The tally with one number more. A test of dates that disagrees with the day count spoils the digest.
fn with_number(tally: Tally, x: u32) -> Tally {
    let is_date = calendar::is_date(x);
    let day = calendar::day_count(x);
    let counted = day.map_or(tally, |day| {
        let date = calendar::plus_days(20000101, day).unwrap_or(0);
        Tally {
            count: tally.count.saturating_add(1),
            digest: mixed(
                mixed(mixed(tally.digest, x.into()), day.into()),
                date.into(),
            ),
        }
    });
    if day.is_ok() == is_date {
        counted
    } else {
        Tally {
            digest: mixed(counted.digest, 1),
            ..counted
        }
    }
}

// The line of a year. It answers the digest.
fn put_year(rt: &impl Print, year: u32, digest: u64) -> u64
    requires { year ≤ 2200 }
{
    let first = year * 10000;
    let tally = Tally { count: 0, digest };
    let Tally { count, digest } = (first..first + 10000).fold(
        tally,
        |tally, x| with_number(tally, x),
    );
    let _ = println!(rt; "{year} {count} {digest}");
    digest
}

// The line of the next case.
fn put_case(rt: &impl Print, cases: &mut Cases) {
    let date = cases.number_u32();
    let days = cases.number_u32();
    let to = cases.number_u32();
    let is_date = u8::from(calendar::is_date(date));
    let day = calendar::day_count(date);
    let sum = calendar::plus_days(date, days);
    let between = calendar::days_between(date, to);
    let _ = print!(rt; "{is_date} {} {} ", number_of(day), day.unwrap_or(0));
    let _ = print!(rt; "{} {} ", number_of(sum), sum.unwrap_or(0));
    let _ = println!(rt; "{} {}", number_of(between), between.unwrap_or(0));
}

fn main(rt: HostRuntime) -> io::Result<()> {
    let mut digest = 0;
    for year in 1999..=2200 {
        digest = put_year(&rt, year, digest);
    }
    let mut buffer = [0u8; INPUT];
    let mut cases = Cases::read(&mut rt.stdin(), &mut buffer)?;
    for _ in 0..cases.number() {
        put_case(&rt, &mut cases);
    }
    Ok(())
}
