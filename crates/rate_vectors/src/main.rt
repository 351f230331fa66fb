// Prints the daily rate of each annual rate, and of some that are refused: ANNUAL NUMBER DAILY.
#![tactic(auto)]

use answers::number_of;
use rates::daily_rate;

// Annual rates over the greatest.
const REFUSED: [u64; 7] = [
    4001,
    4002,
    65535,
    4294967295,
    4294967296,
    4294969296,
    18446744073709551615,
];

// The line of an annual rate.
fn put_rate(rt: &impl Print, annual: u64) {
    let daily = daily_rate(annual);
    let _ = println!(rt; "{annual} {} {}", number_of(daily), daily.unwrap_or(0));
}

fn main(rt: HostRuntime) {
    for annual in (0..=rates::GREATEST).chain(REFUSED) {
        put_rate(&rt, annual);
    }
}
