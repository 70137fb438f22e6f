// FIPS 180-4, section 5.1.1: padding the message. Its whole blocks stay where they are lent. What is written is the end of the padded message,
// after those: the rest of the message, the bit 1, zeros, and the length in bits (`end_is`).
ghost use Rattle.std.specs.Prelude.{◌≡◌, ◌-◌, ◌*◌, ◌/◌, ◌≤◌, ◌++◌, length, drop, replicate};
ghost use Rattle.sha256.specs.Padding.{pad, pad_tail};
ghost use Rattle.sha256.specs.Call.{longest};

// How many blocks the end has: one, or two where the length has no room beside the rest (`end_blocks`).
pub fn end_blocks(m: &[u8]) -> usize
    ensures { result ≡ length (pad m.now) / 64 - length m.now / 64 }
{
    (m.len() % 64 + 72) / 64
}

// Writes the end of a message of n bytes, of which m is left, into the lent buffer, which is two blocks of zeros, from its first byte on; zeros
// stay behind it.
pub fn put_end(m: &[u8], n: usize, end: &mut [u8])
    requires { (n ≤ longest) × (end.old ≡ replicate 128 0) }
    ensures { end.new
        ≡ drop (length m.now / 64 * 64) (pad_tail n m.now)
        ++ replicate (128 - (length (pad m.now) - length m.now / 64 * 64)) 0 }
{
    let whole = m.len() / 64 * 64;
    octets::copy_at(&m[whole..], end, 0);
    end[m.len() - whole] = 0x80;
    // the 64-bit length: its high word is zero (`be_8`)
    octets::put_word(end, end_blocks(m) * 64 - 4, (n * 8) as u32);
}
