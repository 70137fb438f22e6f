// (a): "a held symbol whose hash isn't the committed one becomes absent; absent places are zeroed".
ghost use Rattle.std.specs.Prelude.{suc};
ghost use Rattle.model.specs.Shape.{Shape, Hangs, tree as shape};
ghost use Rattle.model.specs.Repair.{sweep_at, sweep};
ghost use Rattle.symbol_hash.specs.SymbolHash.{symbol_hash};
ghost use Rattle.equation.specs.Rooms.{Level};
ghost use Rattle.peeling.specs.States.{Moved};

use coded_tree::first_place;
use equation::is_gap;
use symbol_hash::Kind;

// (a) for symbol i of layer j.
fn sweep_at(kind: Kind, root: &[u8], tree: &mut [u8], marks: &mut [u8], j: usize, i: usize)
    requires { Level root.now tree.old marks.old j (suc i) }
    ensures { Moved (sweep_at shape (symbol_hash kind) root.now j i) tree.old marks.old tree.new
        marks.new }
{
    if is_gap(kind, root, tree, marks, j, i) {
        let p = first_place(j) + i;
        let zeros = [0u8; 256];
        octets::copy_at(&zeros, tree, 256 * p);
        marks[p] = 0;
    }
}

// (a) for the n symbols of layer j.
pub fn sweep_layer(kind: Kind, root: &[u8], tree: &mut [u8], marks: &mut [u8], j: usize, n: usize)
    requires { Level root.now tree.old marks.old j n }
    ensures { (S : Shape) → Hangs S j
        → Moved (sweep S (symbol_hash kind) root.now j 0 n) tree.old marks.old tree.new
        marks.new }
{
    for i in 0..n {
        sweep_at(kind, root, tree, marks, j, i);
    }
}
