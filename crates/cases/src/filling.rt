// A buffer filled with bytes that differ from their neighbours.
ghost use Rattle.std.specs.Prelude.{◌≡◌, length};
ghost use Rattle.cases.specs.Filled.{filled};

// Fills a buffer: byte i becomes 35 + i % 90.
#[tactic(auto, using(crate::proofs::FilledBytes::fills), unfolding(crate::specs::Filled::filled))]
pub fn fill(buffer: &mut [u8])
    ensures { buffer.new ≡ filled (length buffer.old) }
{
    for (i, byte) in buffer.iter_mut().enumerate() {
        *byte = 35 + (i % 90) as u8;
    }
}
