// The statement program: the first 65,536 bytes of standard input, or all if fewer, to their statement on standard output.
#![tactic(auto)]

use input::read_full;
use report::write_report;

// The most bytes of a file.
const FILE: usize = 65536;

// A read that fails counts as the input's end. It ends with 0 even where the output fails.
fn main(rt: HostRuntime) {
    let mut buffer = [0u8; FILE];
    let (count, _) = read_full(&mut rt.stdin(), &mut buffer);
    let _ = write_report(&buffer[..count], &mut rt.stdout());
}
