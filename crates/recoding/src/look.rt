// The look at a tree that is lent to be read: whether a repair would call it whole without storing anything.
ghost use Rattle.std.specs.Prelude.{◌≡◌, ◌*◌, ◌<◌};
ghost use Rattle.octets.specs.ByteLists.{same};
ghost use Rattle.parity_table.specs.Shape.{k_of, n_of};
ghost use Rattle.parity_table.specs.Table.{equation_of};
ghost use Rattle.parity_table.specs.Accepted.{Kept};
ghost use Rattle.model.specs.Shape.{tree as shape};
ghost use Rattle.model.specs.Symbols.{xor_of, zeros, sym_at};
ghost use Rattle.model.specs.Look.{all_hold, no_gaps, is_complete, intact};
ghost use Rattle.symbol_hash.specs.SymbolHash.{symbol_hash};
ghost use Rattle.fault_writer.specs.Room.{Layers};
ghost use Rattle.equation.specs.Rooms.{Level};
ghost use Rattle.recoding.specs.Look.{Lent};

use equation::{holds, is_gap};
use parity_table::{Table, data_count};
use symbol_hash::Kind;

// Whether equation e of layer j holds. The caller knows from the table's depth that it keeps the rules.
fn equation_holds(table: &Table, tree: &[u8], j: usize, e: usize) -> bool
    requires { Kept table.now × (j < table.now.depth) × (e < 3 * k_of j) × Layers j (n_of j) tree.now }
    ensures { result ≡ same (xor_of (sym_at shape tree.now j) (equation_of table.now.layers j e)) zeros }
{
    holds(table.members(j, e), tree, j)
}

// Whether each equation of layer j holds.
fn all_hold(table: &Table, tree: &[u8], j: usize) -> bool
    requires { Kept table.now × (j < table.now.depth) × Layers j (n_of j) tree.now }
    ensures { result ≡ all_hold shape table.now.layers tree.now j }
{
    (0..3 * data_count(j)).all(|e| equation_holds(table, tree, j, e))
}

// Whether no symbol of layer j is a gap.
fn no_gaps(kind: Kind, root: &[u8], tree: &[u8], marks: &[u8], j: usize) -> bool
    requires { Level root.now tree.now marks.now j (n_of j) }
    ensures { result ≡ no_gaps shape (symbol_hash kind) root.now tree.now marks.now j }
{
    (0..4 * data_count(j)).all(|i| !is_gap(kind, root, tree, marks, j, i))
}

// Whether layer j is complete.
fn is_complete(kind: Kind, table: &Table, root: &[u8], tree: &[u8], marks: &[u8], j: usize) -> bool
    requires { Kept table.now × Lent table.now.depth root.now tree.now marks.now × (j < table.now.depth) }
    ensures { result ≡ is_complete shape (symbol_hash kind) root.now table.now.layers tree.now marks.now j }
{
    no_gaps(kind, root, tree, marks, j) && all_hold(table, tree, j)
}

// Whether every layer is complete.
pub fn is_intact(kind: Kind, table: &Table, root: &[u8], tree: &[u8], marks: &[u8]) -> bool
    requires { Lent table.now.depth root.now tree.now marks.now }
    ensures { result ≡ intact shape (symbol_hash kind) root.now table.now.layers tree.now marks.now }
{
    (0..table.depth()).all(|j| is_complete(kind, table, root, tree, marks, j))
}
