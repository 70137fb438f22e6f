// Work on byte slices: 32-bit words in them, the highest byte first; copies; their hexadecimal form.
#![tactic(auto)]

pub mod hex;
mod lists;

ghost use Rattle.std.specs.Prelude.{◌≡◌, ◌+◌, ◌≤◌, length};
ghost use Rattle.std.proofs.lemmas.List.Edits.{sets};
ghost use Rattle.std.proofs.Math.Seq.{paste};
ghost use Rattle.octets.specs.BigEndian.{be, word_at};

pub use hex::put_hex;
pub use lists::{equal_at, greatest, is_zero, symbol_at, xor_at};

// The word in the four bytes from byte at on.
pub fn word_at(s: &[u8], at: usize) -> u32
    requires { at + 4 ≤ length s.now }
    ensures { result ≡ word_at s.now at }
{
    u32::from_be_bytes([s[at], s[at + 1], s[at + 2], s[at + 3]])
}

// Writes x into the four bytes from byte at on.
pub fn put_word(s: &mut [u8], at: usize, x: u32)
    requires { at + 4 ≤ length s.old }
    ensures { s.new ≡ sets s.old at (be 4 x) }
{
    let [a, b, c, d] = x.to_be_bytes();
    s[at..at + 4].copy_from_slice(&[a, b, c, d]);
}

// Copies s into d, from byte at on. Byte by byte: `copy_from_slice` would have the archive for C ask for `memmove` too.
pub fn copy_at(s: &[u8], d: &mut [u8], at: usize)
    requires { at + length s.now ≤ length d.old }
    ensures { d.new ≡ paste d.old at s.now (length s.now) }
{
    for (i, &x) in s.iter().enumerate() {
        d[at + i] = x;
    }
}
