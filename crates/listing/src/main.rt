// Codes the block of 1,024 bytes on standard input at depth 1 with the house table, and lists its symbols: a header (word, depth,
// symbols), then each symbol's number in decimal and its first byte as two upper-case hexadecimal digits. Any other input lists nothing.
#![tactic(auto)]

ghost use Rattle.io.specs.Counts.{IsPrefixLen};

mod text;

use std::io::Read;

// Reads until the buffer is full, the input ends or a read fails; answers how many bytes it put at the start of the buffer.
fn read_full(rt: &impl Input, buffer: &mut [u8]) -> usize
    ensures { IsPrefixLen result buffer.new }
{
    // not `read_exact`, which does not say how much came
    let mut n: usize = 0;
    while n < buffer.len() {
        match rt.reader().read(&mut buffer[n..]) {
            Ok(0) | Err(_) => break,
            Ok(more) => n += more,
        }
    }
    n
}

fn main(rt: HostRuntime) {
    let mut input = [0u8; 1025];
    let n = read_full(&rt, &mut input);
    let mut out = [0u8; 96];
    let m = text::put(&input[..n], &mut out);
    let _ = rt.write_all(&out[..m]);
}
