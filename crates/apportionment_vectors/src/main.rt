// Prints the division of each case of the input: ANSWER and the 64 parts.
#![tactic(auto)]

use apportionment::{POSITIONS, Undivided, apportion};
use cases::Cases;
use std::io;

// The most bytes of the input.
const INPUT: usize = 65536;

// The most weights that a case passes: more than are divided among.
const WEIGHTS: usize = 70;

// The numbers of a division's answers are this program's own: 0 for the parts, and the reasons in their order from 1.
fn number(answer: Result<[u64; POSITIONS], Undivided>) -> u8 {
    answer.err().map_or(0, |reason| reason as u8 + 1)
}

// The line of the next case: its amount, how many weights are passed, and how many are stated, which come next. The others are 0.
fn put_case(rt: &impl Print, cases: &mut Cases) {
    let amount = cases.number();
    let passed = cases.count(WEIGHTS);
    let stated = cases.count(POSITIONS);
    let mut weights = [0u64; WEIGHTS];
    for weight in &mut weights[..stated] {
        *weight = cases.number();
    }
    let answer = apportion(amount, &weights[..passed]);
    let _ = print!(rt; "{}", number(answer));
    for part in answer.unwrap_or([0; POSITIONS]) {
        let _ = print!(rt; " {part}");
    }
    let _ = println!(rt; "");
}

fn main(rt: HostRuntime) -> io::Result<()> {
    let mut buffer = [0u8; INPUT];
    let mut cases = Cases::read(&mut rt.stdin(), &mut buffer)?;
    for _ in 0..cases.number() {
        put_case(&rt, &mut cases);
    }
    Ok(())
}
