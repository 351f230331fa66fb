// The bytes of an input, in a lent buffer.
#![tactic(auto)]

ghost use Rattle.std.specs.Prelude.{◌≡◌, ◌<◌, ◌≤◌, length, take, IfOk};
ghost use Rattle.std.specs.Io.KnownBytes.{Consumes, IsAtEnd};

use std::io;
use std::io::Read;

// Reads into a buffer's front until it is full, the input ends or a read fails. It answers how many bytes stand there, and whether a read failed.
// The loop is by hand: std's read_exact says nothing of the bytes read before an Err, and read_to_end needs the heap.
#[tactic(auto, using(crate::proofs::ReadBytes::reads_on))]
pub fn read_full<R: Read>(input: &mut R, buffer: &mut [u8]) -> (usize, io::Result<()>)
    ensures within { result.0 ≤ length buffer.new }
    ensures bytes { Consumes (R.remaining input.old) (R.remaining input.new) (take result.0 buffer.new) }
    ensures end { IfOk result.1 (λ _. result.0 < length buffer.new → IsAtEnd (R.remaining input.new)) }
{
    let mut count = 0;
    while count < buffer.len() {
        match input.read(&mut buffer[count..]) {
            Ok(0) => break,
            Ok(read) => count += read,
            Err(error) => return (count, Err(error)),
        }
    }
    (count, Ok(()))
}
