// Writes the statement of each file of the input into a buffer, and prints its number, its length and the buffer's digest, and then its bytes.
#![tactic(auto)]

use answers::number_of;
use cases::{Cases, digest, fill};
use report::report;
use std::io;

// The most bytes of the input.
const INPUT: usize = 262144;

// The most bytes of a buffer.
const BUFFER: usize = 4000;

#[tactic(auto, unfolding(report::specs::Statement::report_of))]
fn put_report(rt: &impl Print, file: &[u8], buffer: &mut [u8]) {
    let printed = report(file, buffer);
    let count = printed.unwrap_or(0);
    let _ = println!(rt; "{} {count} {}", number_of(printed), digest(buffer));
    let _ = rt.write_all(&buffer[..count]);
}

// The next case: the buffer's size, and the file.
fn run_case(rt: &impl Print, cases: &mut Cases) {
    let size = cases.count(BUFFER);
    let mut buffer = [0u8; BUFFER];
    fill(&mut buffer);
    put_report(rt, cases.bytes(), &mut buffer[..size]);
}

fn main(rt: HostRuntime) -> io::Result<()> {
    let mut buffer = [0u8; INPUT];
    let mut cases = Cases::read(&mut rt.stdin(), &mut buffer)?;
    for _ in 0..cases.number() {
        run_case(&rt, &mut cases);
    }
    Ok(())
}
