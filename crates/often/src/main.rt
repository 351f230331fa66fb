// For the bench: the statement of an order file; or, given a number of cents, 10,000 settlements of one book by them, and what they took.
#![tactic(auto)]

mod settling;

use crate::settling::taken_often;
use book::Cents;
use cases::Cases;
use report::write_report;
use std::io;

// The most bytes of the input.
const INPUT: usize = 65536;

// The most digits of a number of cents.
const DIGITS: usize = 12;

// What the settlements took, by the number of cents that the input has in its first line; nothing where something else stands there.
fn put_settlements(rt: &impl Print, input: &mut Cases) {
    let cents = Cents(input.number());
    if input.at <= DIGITS && matches!(input.text.get(input.at), None | Some(b'\n')) {
        let _ = println!(rt; "{}", taken_often(cents));
    }
}

// An input that begins with a digit, as no order does, is a number of cents.
fn main(rt: HostRuntime) -> io::Result<()> {
    let mut buffer = [0u8; INPUT];
    let mut input = Cases::read(&mut rt.stdin(), &mut buffer)?;
    if input.text.first().is_some_and(u8::is_ascii_digit) {
        put_settlements(&rt, &mut input);
    } else {
        let _ = write_report(input.text, &mut rt.stdout());
    }
    Ok(())
}
