// Digests of numbers and of bytes.
ghost use Rattle.std.specs.Prelude.{◌≡◌};
ghost use Rattle.cases.specs.Digests.{mixed_of, digest_of};

// What a digest is counted modulo.
const MODULUS: u64 = 4294967291;

// A digest with one number more. Both are reduced first, so that nothing wraps.
#[tactic(auto, unfolding(crate::specs::Digests::mixed_of))]
pub fn mixed(h: u64, value: u64) -> u64
    ensures { result ≡ mixed_of h value }
{
    (h % MODULUS * 31 + value % MODULUS) % MODULUS
}

// The digest of bytes: their count, and each byte in order.
pub fn digest(bytes: &[u8]) -> u64
    ensures { result ≡ digest_of bytes.now }
{
    let count = bytes.len() as u64 % MODULUS;
    bytes.iter().fold(count, |h, &byte| mixed(h, byte.into()))
}
