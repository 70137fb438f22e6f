// The tree writer and reading back: the cores, for a table and buffers that are known to be right.
#![tactic(auto)]

mod hashes; // the hashes of a layer in the layer above, and the root
mod marks; // the first symbol that is absent
mod parity; // the parity symbols of a layer
mod writer; // the whole tree, its marks and its root; the block read back, and what fills it up

ghost use Rattle.std.specs.Prelude.{◌≡◌, ◌≤◌};
ghost use Rattle.parity_table.specs.Shape.{max_depth};
ghost use Rattle.model.specs.Shape.{tree as shape, places};

pub use marks::first_absent;
pub use parity::xor_others;
pub use writer::{block_in, read_block, write, zero_filled};

// The place of the first symbol of layer j: 16·(2^j−1).
pub fn first_place(j: usize) -> usize
    requires { j ≤ max_depth }
    ensures { result ≡ places shape j }
{
    let n: usize = 1 << j;
    16 * (n - 1)
}
