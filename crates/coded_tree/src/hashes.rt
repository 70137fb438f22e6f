// The hashes of the symbols of a layer: in the data symbols of the layer above, or in the root.
ghost use Rattle.std.specs.Prelude.{◌≡◌, suc, ◌+◌, ◌*◌, ◌<◌, ◌≤◌, length};
ghost use Rattle.parity_table.specs.Shape.{k_of, n_of, max_depth};
ghost use Rattle.model.specs.Shape.{tree as shape, places};
ghost use Rattle.model.specs.Symbols.{sym_at};
ghost use Rattle.model.specs.Coded.{root_of};
ghost use Rattle.model.specs.Writer.{put_hash, put_hashes};
ghost use Rattle.symbol_hash.specs.SymbolHash.{symbol_hash};

use crate::first_place;
use parity_table::data_count;
use symbol_hash::Kind;

// Writes the hash of symbol i of layer j + 1 into layer j, which has k data symbols. The two layers start at places above and base.
fn put_hash(kind: Kind, tree: &mut [u8], above: usize, base: usize, k: usize, j: usize, i: usize)
    requires { (above ≡ places shape j) × (base ≡ places shape (suc j)) × (k ≡ k_of j) × (j < max_depth) × (i < n_of (suc j))
        × (256 * (base + n_of (suc j)) ≤ length tree.old) }
    ensures { tree.new ≡ put_hash shape (symbol_hash kind) j i tree.old }
{
    let h = symbol_hash::hash(kind, j + 1, i, octets::symbol_at(tree, base + i));
    octets::copy_at(&h, tree, 256 * (above + i % k) + 32 * (i / k));
}

// Writes the hashes of all symbols of layer j + 1 into layer j.
pub fn put_hashes(kind: Kind, tree: &mut [u8], j: usize)
    requires { (suc j < max_depth) × (256 * (places shape (suc j) + n_of (suc j)) ≤ length tree.old) }
    ensures { tree.new ≡ put_hashes shape (symbol_hash kind) j 0 (n_of (suc j)) tree.old }
{
    let k = data_count(j);
    let above = first_place(j);
    let base = first_place(j + 1);
    for i in 0..8 * k {
        put_hash(kind, tree, above, base, k, j, i);
    }
}

// Writes the root: the hashes of the sixteen symbols of layer 0, in order.
pub fn put_root(kind: Kind, tree: &[u8], root: &mut [u8])
    requires { (256 * 16 ≤ length tree.now) × (length root.old ≡ 512) }
    ensures { root.new ≡ root_of shape (symbol_hash kind) (sym_at shape tree.now) }
{
    for i in 0..16 {
        let h = symbol_hash::hash(kind, 0, i, octets::symbol_at(tree, i));
        octets::copy_at(&h, root, 32 * i);
    }
}
