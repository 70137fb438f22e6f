// Test 2: the lengths of a tree and its marks.
ghost use Rattle.std.specs.Prelude.{◌≡◌, ◌&&◌};
ghost use Rattle.parity_table.specs.Shape.{depth_fits};
ghost use Rattle.calls.specs.Lengths.{tree_sized};

use parity_table::depth_fits;

// Whether the depth is one, and a tree buffer and its marks have the lengths of it.
pub fn tree_fits(depth: usize, tree: usize, marks: usize) -> bool
    ensures { result ≡ depth_fits depth && tree_sized depth tree marks }
{
    if !depth_fits(depth) {
        return false;
    }
    let n = coded_tree::first_place(depth);
    tree == 256 * n && marks == n
}
