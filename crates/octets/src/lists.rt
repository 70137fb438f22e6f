// Parts of byte slices: found, compared, and taken together by exclusive-or.
ghost use Rattle.std.specs.Prelude.{◌≡◌, ◌+◌, ◌*◌, ◌≤◌, length, take, drop, replicate, fold, max};
ghost use Rattle.octets.specs.ByteLists.{same, xors};

// Whether the bytes of s are those of t from byte at on.
pub fn equal_at(s: &[u8], t: &[u8], at: usize) -> bool
    requires { at + length s.now ≤ length t.now }
    ensures { result ≡ same s.now (take (length s.now) (drop at t.now)) }
{
    s == &t[at..at + s.len()]
}

// The greatest of the bytes of s, 0 where there is none. A pass that never stops early is made one of vectors, and `any` or `all` would stop.
pub fn greatest(s: &[u8]) -> u8
    ensures { result ≡ fold max 0 s.now }
{
    let mut most: u8 = 0;
    for &x in s {
        most = most.max(x);
    }
    most
}

// Whether every byte of s is zero: the greatest says it.
pub fn is_zero(s: &[u8]) -> bool
    ensures { result ≡ same s.now (replicate (length s.now) 0) }
{
    greatest(s) == 0
}

// The exclusive-or of s and the bytes of t from byte at on, into s.
pub fn xor_at(s: &mut [u8], t: &[u8], at: usize)
    requires { at + length s.old ≤ length t.now }
    ensures { s.new ≡ xors s.old (take (length s.old) (drop at t.now)) }
{
    for (i, x) in s.iter_mut().enumerate() {
        *x ^= t[at + i];
    }
}

// Symbol x of symbols that stand one after the other, 256 bytes each.
pub fn symbol_at(symbols: &[u8], x: usize) -> &[u8]
    requires { 256 * x + 256 ≤ length symbols.now }
    ensures symbol { result.now ≡ take 256 (drop (256 * x) symbols.now) }
    ensures long { length result.now ≡ 256 }
{
    &symbols[256 * x..256 * x + 256]
}
