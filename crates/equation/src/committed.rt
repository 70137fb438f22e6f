// Whether a symbol has the hash that is committed for it, in the root or in the tree buffer's layer above, and whether it is a gap.
ghost use Rattle.std.specs.Prelude.{◌≡◌, suc, length};
ghost use Rattle.model.specs.Shape.{tree as shape};
ghost use Rattle.model.specs.Ends.{gap_at};
ghost use Rattle.symbol_hash.specs.SymbolHash.{symbol_hash};
ghost use Rattle.fault_writer.specs.Room.{Layers};
ghost use Rattle.equation.specs.Rooms.{Rooted, Level};
ghost use Rattle.equation.specs.States.{fits_in};

use coded_tree::first_place;
use parity_table::data_count;
use symbol_hash::Kind;

// Whether s has the hash that is committed for symbol i of layer j.
pub fn fits(kind: Kind, root: &[u8], tree: &[u8], j: usize, i: usize, s: &[u8]) -> bool
    requires { Layers j 0 tree.now × Rooted root.now j (suc i) × (length s.now ≡ 256) }
    ensures { result ≡ fits_in kind root.now tree.now j i s.now }
{
    if j == 0 {
        return symbol_hash::fits(kind, j, i, s, root, tree, 0);
    }
    let above = j - 1;
    let up = 256 * (first_place(above) + i % data_count(above));
    symbol_hash::fits(kind, j, i, s, root, tree, up)
}

// Whether symbol i of layer j is a gap: it is not marked held, or hasn't the hash that is committed for it.
pub fn is_gap(kind: Kind, root: &[u8], tree: &[u8], marks: &[u8], j: usize, i: usize) -> bool
    requires { Level root.now tree.now marks.now j (suc i) }
    ensures { result ≡ gap_at shape (symbol_hash kind) root.now tree.now marks.now tree.now j i }
{
    let p = first_place(j) + i;
    marks[p] != 1 || !fits(kind, root, tree, j, i, octets::symbol_at(tree, p))
}
