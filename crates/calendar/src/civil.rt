// Years, months and days: a date taken apart, and put together from its day count.
ghost use Rattle.std.specs.Prelude.{◌≡◌, true, ◌+◌, ◌-◌, ◌<◌, ◌≤◌};
ghost use Rattle.calendar.specs.Calendar.{is_leap, days_in, days_of_years, days_of_months, is_date, day_count, first_date, after};

// The days before each month of a common year and of a leap year, and those of the whole year.
const BEFORE: [[u32; 13]; 2] = [
    [0, 31, 59, 90, 120, 151, 181, 212, 243, 273, 304, 334, 365],
    [0, 31, 60, 91, 121, 152, 182, 213, 244, 274, 305, 335, 366],
];

pub fn is_leap(year: u32) -> bool
    ensures { result ≡ is_leap year }
{
    year % 4 == 0 && (year % 100 != 0 || year % 400 == 0)
}

// The days of a year before one of its months; those of the whole year before the month 13. Months are numbers, as the 13th is asked for too.
pub fn days_before(year: u32, month: u32) -> u32
    requires { (1 ≤ month) × (month ≤ 13) }
    ensures { result ≡ days_of_months year (month - 1) }
{
    BEFORE[usize::from(is_leap(year))][(month - 1) as usize]
}

#[tactic(auto, using(crate::proofs::Lengths::months_grow))]
pub fn days_in(year: u32, month: u32) -> u32
    requires { (1 ≤ month) × (month ≤ 12) }
    ensures { result ≡ days_in year month }
{
    days_before(year, month + 1) - days_before(year, month)
}

// The days of the first years from 2000 on: 365 each, and one more for each leap year among them.
#[tactic(auto, using(crate::proofs::Lengths::years_formula))]
pub fn days_of_years(years: u32) -> u32
    requires { years ≤ 200 }
    ensures { result ≡ days_of_years years }
{
    365 * years + years.div_ceil(4) - years.div_ceil(100) + years.div_ceil(400)
}

// The day of a date, counted from 20000101.
#[tactic(auto, using(crate::proofs::Counts::count_within), unfolding(crate::specs::Calendar::day_count))]
pub fn day_of_range(date: u32) -> u32
    requires { is_date date ≡ true }
    ensures { result ≡ day_count date }
{
    let year = date / 10000;
    let month = date / 100 % 100;
    days_of_years(year - 2000) + (days_before(year, month) + (date % 100 - 1))
}

// The year of a day, counted from 2000. No year has over 366 days, so it is no earlier than day / 366; over 200 years it is one year later at most.
#[tactic(auto, using(crate::proofs::Lengths::years_formula))]
pub fn year_of(day: u32) -> u32
    requires { day < 73049 }
    ensures { (result < 200) × (days_of_years result ≤ day) × (day < days_of_years (result + 1)) }
{
    let year = day / 366;
    if day < days_of_years(year + 1) {
        year
    } else {
        year + 1
    }
}

// The month of the day of a year. No month has over 31 days, so it is no earlier than day / 31 + 1; over a year it is one month later at most.
#[tactic(auto, using(crate::proofs::Lengths::months_most, crate::proofs::Lengths::months_least))]
pub fn month_of(year: u32, day: u32) -> u32
    requires { day < days_of_months year 12 }
    ensures { (1 ≤ result) × (result ≤ 12) × (days_of_months year (result - 1) ≤ day) × (day < days_of_months year result) }
{
    let month = day / 31 + 1;
    if day < days_before(year, month + 1) {
        month
    } else {
        month + 1
    }
}

// The date of a day counted from 20000101.
#[tactic(auto, using(crate::proofs::Lengths::years_more, crate::proofs::Walk::date_at))]
pub fn date_of(day: u32) -> u32
    requires { day < 73049 }
    ensures { result ≡ after first_date day }
{
    let k = year_of(day);
    let year = 2000 + k;
    let rest = day - days_of_years(k);
    let month = month_of(year, rest);
    year * 10000 + month * 100 + (rest - days_before(year, month) + 1)
}
