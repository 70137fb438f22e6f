// A symbol, and the way up from it: "the whole data symbol of each layer from j−1 to 0 on the way up".
ghost use Rattle.std.specs.Prelude.{◌≡◌, suc, ◌+◌, ◌*◌, ◌≤◌, length};
ghost use Rattle.model.specs.Shape.{Shape, Hangs, tree as shape};
ghost use Rattle.model.specs.Symbols.{sym_at};
ghost use Rattle.model.specs.Fault.{way_bytes, path_bytes};
ghost use Rattle.fault_writer.specs.Room.{splice, Layers};

use coded_tree::first_place;
use parity_table::data_count;

// Copies symbol m of layer l into out, from byte at on.
pub fn put_symbol(tree: &[u8], l: usize, m: usize, out: &mut [u8], at: usize)
    requires { Layers l (suc m) tree.now × (at + 256 ≤ length out.old) }
    ensures { (S : Shape) → Hangs S l → out.new ≡ splice out.old at (sym_at S tree.now l m) }
{
    octets::copy_at(octets::symbol_at(tree, first_place(l) + m), out, at);
}

// Symbol i of layer j with its path.
pub fn put_way(tree: &[u8], j: usize, i: usize, out: &mut [u8], at: usize)
    requires { Layers j (suc i) tree.now × (at + 256 * suc j ≤ length out.old) }
    ensures { out.new ≡ splice out.old at (way_bytes shape (sym_at shape tree.now) j i) }
{
    let mut m = i;
    let mut p = at;
    put_symbol(tree, j, m, out, p);
    for l in (0..j).rev() {
        m %= data_count(l);
        p += 256;
        put_symbol(tree, l, m, out, p);
    }
}

// The path of symbol i of layer j.
pub fn put_path(tree: &[u8], j: usize, i: usize, out: &mut [u8], at: usize)
    requires { Layers j 0 tree.now × (at + 256 * j ≤ length out.old) }
    ensures { out.new ≡ splice out.old at (path_bytes shape (sym_at shape tree.now) j i) }
{
    if 0 < j {
        let above = j - 1;
        put_way(tree, above, i % data_count(above), out, at);
    }
}
