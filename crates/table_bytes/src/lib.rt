// A table as bytes, four to a word, the highest first: the form in which it comes from C.
#![tactic(auto)]

ghost use Rattle.std.specs.Prelude.{◌≡◌, ◌*◌, length};
ghost use Rattle.octets.specs.BigEndian.{bytes_of};
ghost use Rattle.parity_table.specs.Parse.{over};
ghost use Rattle.table_bytes.specs.Bytes.{length_fits, front_words};

use parity_table::{MAX_DEPTH, MAX_EQUATIONS, SHALLOW, SHALLOW_EQUATIONS};

// The words that a table may have: nine for each equation of the largest depth, one for each layer, and the end word. In bytes, from C: 220,792.
pub const MAX_WORDS: usize = 9 * MAX_EQUATIONS + MAX_DEPTH + 1;

pub const MAX_BYTES: usize = 4 * MAX_WORDS;

// .. and those of a depth that needs little stack
pub const SHALLOW_WORDS: usize = 9 * SHALLOW_EQUATIONS + SHALLOW + 1;

// A table may have this many bytes.
#[tactic(auto, unfolding(crate::specs::Bytes::length_fits))]
pub fn length_fits(n: usize) -> bool
    ensures { result ≡ length_fits n }
{
    n <= MAX_BYTES && n % 4 == 0
}

// Fills ws, from the front, with the words of the bytes, as many as it has room for; how many.
pub fn words_from(b: &[u8], ws: &mut [u32]) -> usize
    ensures { (result ≡ length (front_words b.now (length ws.old)))
        × (ws.new ≡ over (front_words b.now (length ws.old)) ws.old) }
{
    let n = ws.len().min(b.len() / 4);
    let front = &mut ws[..n];
    for (i, w) in front.iter_mut().enumerate() {
        *w = octets::word_at(b, i * 4);
    }
    n
}

// Fills b with the bytes of the words.
pub fn bytes_from(ws: &[u32], b: &mut [u8])
    requires { length b.old ≡ length ws.now * 4 }
    ensures { b.new ≡ bytes_of ws.now }
{
    for (i, &w) in ws.iter().enumerate() {
        octets::put_word(b, i * 4, w);
    }
}
