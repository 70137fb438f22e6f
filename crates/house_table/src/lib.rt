// The house table, as words and as bytes.
#![tactic(auto)]

ghost use Rattle.std.specs.Prelude.{◌≡◌, true, ◌+◌, ◌*◌, ◌<◌, ◌≤◌, ◌^◌, length};
ghost use Rattle.std.proofs.lemmas.List.Edits.{sets};
ghost use Rattle.octets.specs.BigEndian.{bytes_of};
ghost use Rattle.parity_table.specs.Shape.{max_depth, depth_fits};
ghost use Rattle.house_table.specs.House.{house_words, house_row, house_layer, house_answer, house_out};

use parity_table::{
    END, EQUATION, LAYER, MAX_DEPTH, SHALLOW, TableError, data_count, depth_fits, is_deep,
};
use table_bytes::bytes_from;

// The words of the house table of the largest depth, and of the largest that needs little stack: 5·12·(2^D−1)+1.
const HOUSE_WORDS: usize = 60 * ((1 << MAX_DEPTH) - 1) + 1;

const SHALLOW_HOUSE_WORDS: usize = 60 * ((1 << SHALLOW) - 1) + 1;

// Writes equation e of a layer with k data symbols from word at on; answers where it ends.
fn put_row(out: &mut [u32], at: usize, k: u32, e: u32) -> usize
    requires { (4 ≤ k) × (k ≤ 4 * 2 ^ max_depth) × (e < 3 * k)
        × (at + length (house_row k e) ≤ length out.old) }
    ensures { (result ≡ at + length (house_row k e))
        × (out.new ≡ sets out.old at (house_row k e)) }
{
    let a = e % k;
    let b = (e + 1 + e / k) % k;
    let (low, high) = (a.min(b), a.max(b));
    if e == 0 {
        out[at..at + 4].copy_from_slice(&[EQUATION + e, low, high, k]);
        return at + 4;
    }
    out[at..at + 5].copy_from_slice(&[EQUATION + e, low, high, k + e - 1, k + e]);
    at + 5
}

// Writes layer j, with k data symbols, from word at on; answers where it ends.
fn put_layer(out: &mut [u32], at: usize, j: u32, k: u32) -> usize
    requires { (4 ≤ k) × (k ≤ 4 * 2 ^ max_depth) × (j < max_depth)
        × (at + length (house_layer j k) ≤ length out.old) }
    ensures { (result ≡ at + length (house_layer j k))
        × (out.new ≡ sets out.old at (house_layer j k)) }
{
    out[at] = LAYER + j;
    let mut p = at + 1;
    for e in 0..3 * k {
        p = put_row(out, p, k, e);
    }
    p
}

// How many words the house table of this depth has.
fn word_count(depth: usize) -> usize
    requires { depth ≤ max_depth }
    ensures { (result ≡ length (house_words depth)) × (result ≤ 60 * 2 ^ max_depth) }
{
    let n: usize = 1 << depth;
    60 * (n - 1) + 1
}

// Writes the house table, into as many words as it has.
fn put_table(out: &mut [u32], depth: usize)
    requires { (depth ≤ max_depth) × (length out.old ≡ length (house_words depth)) }
    ensures { out.new ≡ house_words depth }
{
    let mut at: usize = 0;
    for j in 0..depth {
        let k = data_count(j);
        at = put_layer(out, at, j as u32, k as u32);
    }
    out[at] = END + at as u32;
}

// Writes the house table of this depth as words, into exactly as many as it has.
pub fn write(out: &mut [u32], depth: usize) -> Result<(), TableError>
    ensures { (result ≡ house_answer depth (length out.old) (length (house_words depth)))
        × (out.new ≡ house_out result (house_words depth) out.old) }
{
    if !depth_fits(depth) {
        return Err(TableError::Depth);
    }
    if out.len() != word_count(depth) {
        return Err(TableError::Length);
    }
    put_table(out, depth);
    Ok(())
}

// Writes the house table as bytes, into as many as it has, by way of words.
fn put_bytes(out: &mut [u8], depth: usize, words: &mut [u32])
    requires { (depth ≤ max_depth) × (length out.old ≡ length (house_words depth) * 4)
        × (length (house_words depth) ≤ length words.old) }
    ensures { out.new ≡ bytes_of (house_words depth) }
{
    let n = out.len() / 4;
    put_table(&mut words[..n], depth);
    bytes_from(&words[..n], out);
}

// write_bytes, by way of words that have room for the table.
fn write_in(out: &mut [u8], depth: usize, words: &mut [u32]) -> Result<(), TableError>
    requires { depth_fits depth ≡ true → length (house_words depth) ≤ length words.old }
    ensures { (result ≡ house_answer depth (length out.old) (length (house_words depth) * 4))
        × (out.new ≡ house_out result (bytes_of (house_words depth)) out.old) }
{
    if !depth_fits(depth) {
        return Err(TableError::Depth);
    }
    if out.len() != word_count(depth) * 4 {
        return Err(TableError::Length);
    }
    put_bytes(out, depth, words);
    Ok(())
}

// write_bytes, by way of an array of WORDS words. It is never taken into another's frame, so that the words of a deeper tree are on the stack of a
// deeper call alone.
#[inline(never)]
fn write_by<const WORDS: usize>(out: &mut [u8], depth: usize) -> Result<(), TableError>
    requires room { depth_fits depth ≡ true → length (house_words depth) ≤ WORDS }
    requires few { WORDS ≤ 60 * 2 ^ max_depth }
    ensures { (result ≡ house_answer depth (length out.old) (length (house_words depth) * 4))
        × (out.new ≡ house_out result (bytes_of (house_words depth)) out.old) }
{
    let mut words = [0u32; WORDS];
    write_in(out, depth, &mut words)
}

// Writes the house table of this depth as bytes, into exactly as many as it has.
pub fn write_bytes(out: &mut [u8], depth: usize) -> Result<(), TableError>
    ensures { (result ≡ house_answer depth (length out.old) (length (house_words depth) * 4))
        × (out.new ≡ house_out result (bytes_of (house_words depth)) out.old) }
{
    if is_deep(depth) {
        write_by::<HOUSE_WORDS>(out, depth)
    } else {
        write_by::<SHALLOW_HOUSE_WORDS>(out, depth)
    }
}
