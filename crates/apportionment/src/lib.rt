// An amount divided by weights: quotients rounded down, and the leftover units one each to the greatest remainders, earlier first
// among equals (the largest remainder method; document 01, "Settle").
#![tactic(auto)]

mod leftovers;
mod quotients;

ghost use Rattle.std.specs.Prelude.{◌≡◌};
ghost use Rattle.apportionment.specs.Apportionment.{apportioned};
ghost use Rattle.apportionment.specs.Laws.{Laws};
ghost use Rattle.apportionment.specs.Examples.{Examples};

use crate::quotients::{divided, total_weight};

// The most positions that an amount is divided among.
pub const POSITIONS: usize = 64;

// The greatest amount.
pub const AMOUNT: u64 = 100000000000;

// The greatest total of weights.
pub const WEIGHT: u64 = 92000000;

// Why an amount is not divided: the count of positions, the amount or the total of the weights.
#[derive(Clone, Copy, Debug, PartialEq, Eq)]
pub enum Undivided {
    Count,
    Amount,
    Weight,
}

// What each position receives, and 0 behind the last of them: an array, which is copied, as an ArrayVec isn't.
#[tactic(auto, unfolding(crate::specs::Apportionment::apportioned))]
pub fn apportion(amount: u64, weights: &[u64]) -> Result<[u64; POSITIONS], Undivided>
    ensures { result ≡ apportioned amount weights.now }
{
    if !(1..=POSITIONS).contains(&weights.len()) {
        return Err(Undivided::Count);
    }
    if AMOUNT < amount {
        return Err(Undivided::Amount);
    }
    let total = total_weight(weights);
    if !(1..=WEIGHT).contains(&total) {
        return Err(Undivided::Weight);
    }
    Ok(divided(amount, weights, total))
}

// What callers may rely on of a division, and the worked examples of document 01 that speak of a split alone. It does nothing.
pub fn theorems()
    ensures { Laws × Examples }
{}
