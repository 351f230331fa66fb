// The leftover units: the remainder down to which positions receive one, and the places that do.
ghost use Rattle.std.specs.Prelude.{◌≡◌, ℕ, ◌≤◌, ◌<◌, length, get_or};
ghost use Rattle.general_laws.specs.Sums.{list_below};
ghost use Rattle.apportionment.specs.Steps.{above, Threshold, with_extra};

use crate::POSITIONS;

// How many of the remainders are greater than a number: a sum of ones, as the count of a filter takes 1.7 times as many instructions; and in 32 bits,
// which hold it by the bound, as with 64 bits a division among 64 takes 1.3 times the instructions.
pub fn count_above(remainders: &[u32], bound: u32) -> u32
    requires { length remainders.now ≤ 64 }
    ensures { result ≡ above remainders.now bound }
{
    remainders
        .iter()
        .map(|&remainder| u32::from(bound < remainder))
        .sum()
}

// The remainder at which the leftover units run out, found by halving their range: 27 counts at most below 92,000,000, and none where all are equal. The
// loop goes through numbers, not places. At most 64 remainders, as `count_above` asks it: an ArrayVec would say it, and cost what `divided` tells.
pub fn threshold(remainders: &[u32], leftover: u32) -> u32
    requires { (0 < leftover) × (leftover ≤ length remainders.now) × (length remainders.now ≤ 64) }
    ensures { Threshold remainders.now leftover result }
{
    let mut low = remainders.iter().copied().min().unwrap_or(0);
    let mut high = remainders.iter().copied().max().unwrap_or(0);
    while low < high {
        let middle = low + (high - low) / 2;
        let found = count_above(remainders, middle);
        if found == leftover {
            return middle;
        }
        if found < leftover {
            high = middle;
        } else {
            low = middle + 1;
        }
    }
    low
}

// The leftover units, one each to the remainders above the threshold and to the earliest at it.
#[tactic(auto, using(crate::proofs::Threshold::extra_none, crate::proofs::Threshold::equals_none, crate::proofs::Threshold::extra_at))]
pub fn hand_out(parts: &mut [u64; POSITIONS], remainders: &[u32], leftover: u32)
    requires places { (0 < leftover) × (leftover ≤ length remainders.now) × (length remainders.now ≤ 64) }
    requires parts_small { (k : ℕ) → get_or parts.old k 0 ≤ 100000000000 }
    ensures { parts.new ≡ list_below 64 (with_extra parts.old remainders.now leftover (length remainders.now)) }
{
    let bound = threshold(remainders, leftover);
    let mut spare = leftover - count_above(remainders, bound);
    // By index: no proof was found of what a zip over iter_mut leaves.
    for (i, &remainder) in remainders.iter().enumerate() {
        if remainder == bound && 0 < spare {
            parts[i] += 1;
            spare -= 1;
        } else {
            parts[i] += u64::from(bound < remainder);
        }
    }
}
