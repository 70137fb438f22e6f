// FIPS 180-4, section 5.2.1: the padded message, parsed into blocks of sixteen words.
ghost use Rattle.std.specs.Prelude.{◌≡◌, ◌+◌, ◌*◌, ◌≤◌, length};
ghost use Rattle.sha256.specs.Padding.{block as s_block};

// M_0 to M_15, the words of block i of p.
pub fn block(p: &[u8], i: usize) -> [u32; 16]
    requires { i * 64 + 64 ≤ length p.now }
    ensures { result ≡ s_block p.now i }
{
    let mut b = [0u32; 16];
    for (t, word) in b.iter_mut().enumerate() {
        *word = octets::word_at(p, i * 64 + t * 4);
    }
    b
}
