// The quotients and remainders of an amount times each weight by the total weight.
ghost use Rattle.std.specs.Prelude.{◌≡◌, length, min};
ghost use Rattle.apportionment.specs.Apportionment.{total_weight, padded, part};
ghost use Rattle.apportionment.specs.Steps.{Whole};

use crate::POSITIONS;
use crate::leftovers::hand_out;

// The total of the weights, or the greatest number where it is above that.
pub fn total_weight(weights: &[u64]) -> u64
    ensures { result ≡ min (total_weight weights.now) 18446744073709551615 }
{
    weights
        .iter()
        .fold(0u64, |total, &weight| total.saturating_add(weight))
}

// The parts of each position, for an amount and weights that are accepted.
pub fn divided(amount: u64, weights: &[u64], total: u64) -> [u64; POSITIONS]
    requires { Whole amount weights.now total }
    ensures { result ≡ padded (length weights.now) (part amount weights.now) }
{
    let mut parts = [0u64; POSITIONS];
    let mut remainders = [0u32; POSITIONS];
    let mut leftover = amount;
    // By index: no proof was found of what a zip over iter_mut leaves. The remainders are an array too: as an ArrayVec filled by push, a settlement among
    // 64 takes 1.065 times the instructions. The leftover is counted along: with a sum of all 64 parts behind the loop, a division among two takes 1.2
    // times the instructions.
    for (i, &weight) in weights.iter().enumerate() {
        let product = amount * weight;
        let quotient = product / total;
        parts[i] = quotient;
        remainders[i] = (product % total) as u32;
        leftover -= quotient;
    }
    if 0 < leftover {
        hand_out(&mut parts, &remainders[..weights.len()], leftover as u32);
    }
    parts
}
