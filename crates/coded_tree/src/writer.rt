// The whole tree from a block, and the block back from a tree.
ghost use Rattle.std.specs.Prelude.{◌≡◌, ◌+◌, ◌-◌, ◌*◌, ◌≤◌, length, take};
ghost use Rattle.std.proofs.Math.Seq.{paste};
ghost use Rattle.parity_table.specs.Shape.{k_of, max_depth};
ghost use Rattle.model.specs.Shape.{tree as shape, place, places};
ghost use Rattle.model.specs.Writer.{code, write_tree, written_root, written_marks, block_of, filled, zero_filled};
ghost use Rattle.symbol_hash.specs.SymbolHash.{symbol_hash};

use crate::first_place;
use crate::hashes::{put_hashes, put_root};
use crate::parity::put_parities;
use parity_table::{Table, data_count};
use symbol_hash::Kind;

// Codes a tree whose base has its data symbols: layer by layer upward, the parity symbols, then their hashes into the layer above.
fn code_layers(kind: Kind, tree: &mut [u8], table: &Table)
    requires { length tree.old ≡ 256 * places shape table.now.depth }
    ensures { tree.new ≡ code shape (symbol_hash kind) table.now.layers table.now.depth tree.old }
{
    for j in (1..table.depth()).rev() {
        put_parities(tree, table, j);
        put_hashes(kind, tree, j - 1);
    }
    put_parities(tree, table, 0);
}

// Puts the block into the base's data symbols, and zeros behind it.
fn put_block(depth: usize, block: &[u8], tree: &mut [u8])
    requires { (1 ≤ depth) × (depth ≤ max_depth) × (length block.now ≤ 256 * k_of (depth - 1))
        × (length tree.old ≡ 256 * places shape depth) }
    ensures { tree.new
        ≡ paste tree.old (256 * place shape (depth - 1) 0) (filled shape depth block.now) (256 * k_of (depth - 1)) }
{
    let from = 256 * first_place(depth - 1);
    let filling = from + block.len();
    let end = from + 256 * data_count(depth - 1);
    octets::copy_at(block, tree, from);
    tree[filling..end].fill(0);
}

// Writes the tree of the block, filled up with zeros, every mark, and the root.
pub fn write(
    kind: Kind,
    table: &Table,
    block: &[u8],
    tree: &mut [u8],
    marks: &mut [u8],
    root: &mut [u8],
)
    requires { (length block.now ≤ 256 * k_of (table.now.depth - 1))
        × (length tree.old ≡ 256 * places shape table.now.depth)
        × (length marks.old ≡ places shape table.now.depth) × (length root.old ≡ 512) }
    ensures { (tree.new
        ≡ write_tree shape (symbol_hash kind) table.now.layers (filled shape table.now.depth block.now) tree.old)
        × (marks.new ≡ written_marks shape table.now.depth)
        × (root.new ≡ written_root shape (symbol_hash kind) tree.new) }
{
    put_block(table.depth(), block, tree);
    code_layers(kind, tree, table);
    marks.fill(1);
    put_root(kind, tree, root);
}

// The base's data symbols, in order: the block, and what fills it up.
pub fn block_in(depth: usize, tree: &[u8]) -> &[u8]
    requires { (1 ≤ depth) × (depth ≤ max_depth) × (length tree.now ≡ 256 * places shape depth) }
    ensures block { result.now ≡ block_of shape depth tree.now }
    ensures long { length result.now ≡ 256 * k_of (depth - 1) }
{
    let from = 256 * first_place(depth - 1);
    let end = from + 256 * data_count(depth - 1);
    &tree[from..end]
}

// Copies the base's data symbols, in order, into the block, as many bytes as it has.
pub fn read_block(depth: usize, tree: &[u8], block: &mut [u8])
    requires { (1 ≤ depth) × (depth ≤ max_depth) × (length tree.now ≡ 256 * places shape depth)
        × (length block.old ≤ 256 * k_of (depth - 1)) }
    ensures { block.new ≡ take (length block.old) (block_of shape depth tree.now) }
{
    let front = &block_in(depth, tree)[..block.len()];
    octets::copy_at(front, block, 0);
}

// Whether the base's data symbols are zero from byte n on.
pub fn zero_filled(depth: usize, tree: &[u8], n: usize) -> bool
    requires { (1 ≤ depth) × (depth ≤ max_depth) × (length tree.now ≡ 256 * places shape depth) × (n ≤ 256 * k_of (depth - 1)) }
    ensures { result ≡ zero_filled shape depth n tree.now }
{
    let block = block_in(depth, tree);
    octets::is_zero(&block[n..])
}
