// The head of a fault proof and of a root record: three big-endian words, each of a kind, with a value.
#![tactic(auto)]

ghost use Rattle.std.specs.Prelude.{◌≡◌, ◌&&◌, ◌+◌, ◌*◌, ◌^◌, ◌≤◌, ◌<◌, length, ltb, eqb};
ghost use Rattle.parity_table.specs.Parse.{over};
ghost use Rattle.heads.specs.Heads.{head, kind_at, value_at};

use parity_table::{END as KIND_11, EQUATION as KIND_10};

// How many values a word may have: the low 30 bits. The top two are the kind.
const VALUES: u32 = 1 << 30;

// The kind of word i of a head. It stays the number of its two bits, which say other things in a proof, in a record and in a table.
#[tactic(auto, unfolding(crate::specs::Heads::kind_at))]
pub fn kind_at(b: &[u8], i: usize) -> u32
    requires { 4 * i + 4 ≤ length b.now }
    ensures { result ≡ kind_at b.now i }
{
    octets::word_at(b, 4 * i) / VALUES
}

// Its value.
#[tactic(auto, unfolding(crate::specs::Heads::value_at))]
pub fn value_at(b: &[u8], i: usize) -> usize
    requires { 4 * i + 4 ≤ length b.now }
    ensures { result ≡ value_at b.now i }
{
    (octets::word_at(b, 4 * i) % VALUES) as usize
}

// Whether word i of a head has this kind, and a value below this bound.
pub fn names(b: &[u8], i: usize, kind: u32, bound: usize) -> bool
    requires { 4 * i + 4 ≤ length b.now }
    ensures { result ≡ (eqb (kind_at b.now i) kind && ltb (value_at b.now i) bound) }
{
    kind_at(b, i) == kind && value_at(b, i) < bound
}

// Writes a head with these values, its first word of this kind, to the front of out.
pub fn put(kind: u32, first: usize, second: usize, third: usize, out: &mut [u8])
    requires { (kind < 4) × (first < 2 ^ 30) × (second < 2 ^ 30) × (third < 2 ^ 30) × (12 ≤ length out.old) }
    ensures { out.new ≡ over (head kind first second third) out.old }
{
    octets::put_word(out, 0, kind * VALUES + first as u32);
    octets::put_word(out, 4, KIND_10 + second as u32);
    octets::put_word(out, 8, KIND_11 + third as u32);
}
