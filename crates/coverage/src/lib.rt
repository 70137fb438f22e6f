// Whether every data symbol of a table is a member of at least two equations of its layer: one pass over words that the reader has accepted.
#![tactic(auto)]

ghost use Rattle.std.specs.Prelude.{◌≡◌, true, ◌-◌, ◌^◌, ◌≤◌, ◌<◌, length, drop, ltb, position, MatchResult};
ghost use Rattle.parity_table.specs.Parse.{table_of};
ghost use Rattle.parity_table.specs.Reader.{Whole, read_of};
ghost use Rattle.model.specs.Symbols.{found};
ghost use Rattle.coverage.specs.Counting.{ends_layer, has_end, noted, Below, tally, tallied, is_thin, LayerCounted, LayerThin};
ghost use Rattle.coverage.specs.Coverage.{coverage_of};

use parity_table::{MAX_DATA, WordKind, data_count};

// The first layer with a data symbol in fewer than two of its equations, and the lowest such symbol.
#[derive(Clone, Copy, Debug, PartialEq, Eq)]
pub struct Uncovered {
    pub layer: usize,
    pub symbol: usize,
}

// A word that opens a layer, or the end word.
fn ends_layer(w: u32) -> bool
    ensures { result ≡ ends_layer w }
{
    matches!(WordKind::of(w), WordKind::Layer | WordKind::End)
}

// Counts word w where it is the number of a data symbol, seen having an entry for each; whether it ends the layer.
fn note(seen: &mut [u16], w: u32) -> bool
    requires { (length seen.old ≤ 2 ^ 30) × Below seen.old (2 ^ 16 - 2) }
    ensures { (result ≡ ends_layer w) × (seen.new ≡ noted seen.old w) }
{
    let i = w as usize;
    if i < seen.len() {
        seen[i] += 1;
        return false;
    }
    ends_layer(w)
}

// Counts the data symbols among the words from `at` to the layer's end; where that is.
fn count_to_end(ws: &[u32], at: usize, seen: &mut [u16]) -> usize
    requires { (has_end (drop at ws.now) ≡ true) × (length seen.old ≤ 2 ^ 30) × Below seen.old at × (length ws.now < 2 ^ 16) }
    ensures { (result ≤ length ws.now)
        × (tallied seen.new (drop result ws.now) ≡ tally seen.old (drop at ws.now)) }
{
    let mut end = at;
    while !note(seen, ws[end]) {
        end += 1;
    }
    end
}

// The lowest symbol that was seen fewer than two times.
fn first_thin(seen: &[u16]) -> Option<usize>
    ensures { result ≡ position (λ x. ltb x 2) seen.now }
{
    seen.iter().position(|&times| times < 2)
}

// Layer j, whose equations stand from word `at` on, counted in seen, which has an entry for each data symbol: where it ends.
fn check_layer(ws: &[u32], at: usize, j: usize, seen: &mut [u16]) -> Result<usize, Uncovered>
    requires { (has_end (drop at ws.now) ≡ true) × (length seen.old ≤ 2 ^ 30) × (length ws.now < 2 ^ 16) }
    ensures { MatchResult result (λ end. LayerCounted ws.now at (length seen.old) end (length seen.old))
        (λ u. (u.layer ≡ j) × (u.symbol < length seen.old) × LayerThin ws.now at (length seen.old) u.symbol) }
{
    seen.fill(0);
    let end = count_to_end(ws, at, seen);
    match first_thin(seen) {
        Some(symbol) => Err(Uncovered { layer: j, symbol }),
        None => Ok(end),
    }
}

// The coverage of a table of this depth.
pub fn check(ws: &[u32], depth: usize) -> Result<(), Uncovered>
    requires { read_of depth ws.now ≡ Whole }
    ensures { result ≡ coverage_of depth (table_of ws.now) }
{
    let mut seen = [0u16; MAX_DATA];
    let mut at: usize = 0;
    for j in 0..depth {
        at = check_layer(ws, at + 1, j, &mut seen[..data_count(j)])?;
    }
    Ok(())
}
