// Gregorian dates as the numbers YYYYMMDD, from 20000101 to 21991231 (document 01, "Dates").
#![tactic(auto)]

mod civil;

ghost use Rattle.std.specs.Prelude.{◌≡◌};
ghost use Rattle.calendar.specs.Calendar.{is_date};
ghost use Rattle.calendar.specs.Answers.{date_number, date_stated, count_of, sum_of, between_stated, between_of};
ghost use Rattle.calendar.specs.Laws.{Laws};
ghost use Rattle.calendar.specs.Examples.{Examples};

use crate::civil::{date_of, day_of_range, days_in};
use answers::Numbered;

// The refusal of a number that is not a date, and of a sum beyond the last one.
#[derive(Clone, Copy, Debug, PartialEq, Eq)]
pub struct NotADate;

impl Numbered for NotADate {
    ghost number = { λ _. date_number };

    fn number(self) -> u32 {
        NO_DATE
    }
}

// The number of what is not a date.
pub const NO_DATE: u32 = 3;

const FIRST_DATE: u32 = 20000101;

const LAST_DATE: u32 = 21991231;

// The day of LAST_DATE.
const LAST_DAY: u32 = 73048;

pub fn is_date(x: u32) -> bool
    ensures { result ≡ is_date x }
{
    let month = x / 100 % 100;
    let day = x % 100;
    (FIRST_DATE..=LAST_DATE).contains(&x)
        && (1..=12).contains(&month)
        && (1..=days_in(x / 10000, month)).contains(&day)
}

// A date's day, counted from 20000101.
#[tactic(auto, unfolding(crate::specs::Answers::count_of))]
pub fn day_count(date: u32) -> Result<u32, NotADate>
    ensures { date_stated result ≡ count_of date }
{
    if !is_date(date) {
        return Err(NotADate);
    }
    Ok(day_of_range(date))
}

// The date that is some days after another.
#[tactic(auto, using(crate::proofs::Counts::count_within, crate::proofs::Counts::from_first, crate::proofs::Counts::last_count), unfolding(crate::specs::Answers::count_of, crate::specs::Answers::sum_of))]
pub fn plus_days(date: u32, days: u32) -> Result<u32, NotADate>
    ensures { date_stated result ≡ sum_of date days }
{
    let day = day_count(date)?;
    if days > LAST_DAY - day {
        return Err(NotADate);
    }
    Ok(date_of(day + days))
}

// The days from one date to another, negative where the other is earlier.
#[tactic(auto, unfolding(crate::specs::Answers::count_of, crate::specs::Answers::between_of))]
pub fn days_between(from: u32, to: u32) -> Result<i64, NotADate>
    ensures { between_stated result ≡ between_of from to }
{
    let first = day_count(from)?;
    let last = day_count(to)?;
    Ok(i64::from(last) - i64::from(first))
}

// What callers may rely on of dates and day counts, and the worked examples of document 01 that speak of dates alone. It does nothing.
#[tactic(auto, using(crate::proofs::Laws::laws, crate::proofs::Examples::examples))]
pub fn theorems()
    ensures { Laws × Examples }
{}
