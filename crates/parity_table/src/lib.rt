// The parity table of a coded Merkle tree, a list of 32-bit words: its numbers, what a reader of it answers, where its equations stand (`index`), and
// the table that the reader has accepted with that index (`Table`).
#![tactic(auto)]

pub mod index;
mod table;

ghost use Rattle.std.specs.Prelude.{◌≡◌, ◌<◌};
ghost use Rattle.parity_table.specs.Shape.{max_depth, depth_fits, is_deep, k_of};
ghost use Rattle.parity_table.specs.Kinds.{HasKind};

pub use table::Table;

// The largest depth of a tree.
pub const MAX_DEPTH: usize = 9;

// The data symbols of the lowest layer of a tree of the largest depth.
pub const MAX_DATA: usize = 4 << (MAX_DEPTH - 1);

// The equations of a table of the largest depth.
pub const MAX_EQUATIONS: usize = 3 * ((4 << MAX_DEPTH) - 4);

// A call of a depth up to this one needs little stack: arrays for a deeper one stand in functions that only deeper calls enter.
pub const SHALLOW: usize = 5;

pub const SHALLOW_DATA: usize = 4 << (SHALLOW - 1);

pub const SHALLOW_EQUATIONS: usize = 3 * ((4 << SHALLOW) - 4);

// Why a table is not read, or not written.
#[derive(Clone, Copy, Debug, PartialEq, Eq)]
pub enum TableError {
    // the depth is not 1 to the largest
    Depth,
    // a buffer's length is wrong
    Length,
    // the first wrong word, or the number of words of a list that is short
    Wrong(usize),
}

// The lowest word of each kind that is no member.
pub const LAYER: u32 = 1 << 30;

pub const EQUATION: u32 = 2 << 30;

pub const END: u32 = 3 << 30;

// What a word says: its top two bits.
#[derive(Clone, Copy, Debug, PartialEq, Eq)]
pub enum WordKind {
    Member,
    Layer,
    Equation,
    End,
}

impl WordKind {
    // The kind of a word.
    pub fn of(word: u32) -> WordKind
        ensures { HasKind result word }
    {
        match word >> 30 {
            0 => WordKind::Member,
            1 => WordKind::Layer,
            2 => WordKind::Equation,
            _ => WordKind::End,
        }
    }
}

// A tree may have this depth.
pub fn depth_fits(depth: usize) -> bool
    ensures { result ≡ depth_fits depth }
{
    (1..=MAX_DEPTH).contains(&depth)
}

// A tree may have this depth, and it needs the large arrays.
pub fn is_deep(depth: usize) -> bool
    ensures { result ≡ is_deep depth }
{
    SHALLOW < depth && depth_fits(depth)
}

// The data symbols of layer j.
pub fn data_count(j: usize) -> usize
    requires { j < max_depth }
    ensures { result ≡ k_of j }
{
    4 << j
}
