// Hashes messages from standard input, and writes the digest of each as a line of 64 hexadecimal digits.
//
// A message comes as a frame: two big-endian words, times and size, then `size` bytes, at most 4,096; the message is those bytes
// repeated `times` times, as often as they fit into 1,048,576 bytes. The program stops at the end of its input, or at a short frame.
#![tactic(auto)]

ghost use Rattle.std.specs.Prelude.{◌≤◌, length};

use std::io::Read;

// Room for the longest message that can be hashed.
fn message_space() -> [u8; 1048576] {
    [0; 1048576]
}

// Writes the SHA-256 of the message to standard output, as 64 hexadecimal digits.
fn print_digest(rt: &impl Print, message: &[u8]) {
    let mut digest = [0u8; 32];
    let _ = sha256::digest(message, &mut digest);
    let mut digits = [0u8; 64];
    octets::put_hex(&digest, &mut digits);
    let _ = rt.write_all(&digits);
}

// Fills the message with the piece, again and again; answers how many bytes that makes.
fn repeat(piece: &[u8], times: u32, message: &mut [u8]) -> usize
    ensures { result ≤ length message.old }
{
    let mut n: usize = 0;
    for _ in 0..times {
        if piece.len() > message.len() - n {
            return n;
        }
        octets::copy_at(piece, message, n);
        n += piece.len();
    }
    n
}

// Reads the frame's bytes and prints the message's line; false where they are not all there.
fn hash_rest(
    rt: &(impl Input + Print),
    times: u32,
    size: usize,
    piece: &mut [u8],
    message: &mut [u8],
) -> bool {
    if size > piece.len() {
        return false;
    }
    if rt.reader().read_exact(&mut piece[..size]).is_err() {
        return false;
    }
    let n = repeat(&piece[..size], times, message);
    print_digest(rt, &message[..n]);
    rt.write_all(b"\n").is_ok()
}

// Reads a frame and prints its line; false where there is none.
fn hash_frame(rt: &(impl Input + Print), piece: &mut [u8], message: &mut [u8]) -> bool {
    let mut head = [0u8; 8];
    if rt.reader().read_exact(&mut head).is_err() {
        return false;
    }
    let times = octets::word_at(&head, 0);
    let size = octets::word_at(&head, 4);
    hash_rest(rt, times, size as usize, piece, message)
}

// A proved loop has to end, and nothing says that the input does: the turns are counted, up to a number that no run reaches.
fn hash_all(rt: &(impl Input + Print), piece: &mut [u8], message: &mut [u8]) {
    for _ in 0..u64::MAX {
        if !hash_frame(rt, piece, message) {
            return;
        }
    }
}

fn main(rt: HostRuntime) {
    let mut piece = [0u8; 4096];
    let mut message = message_space();
    hash_all(&rt, &mut piece, &mut message);
}
