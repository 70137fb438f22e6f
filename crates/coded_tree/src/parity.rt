// The parity symbols of a layer, each from the other members of its equation.
ghost use Rattle.std.specs.Prelude.{◌≡◌, true, ℕ, ◌+◌, ◌*◌, ◌<◌, ◌≤◌, length, ltb};
ghost use Rattle.parity_table.specs.Shape.{n_of};
ghost use Rattle.parity_table.specs.Members.{every};
ghost use Rattle.parity_table.specs.Table.{layer_of};
ghost use Rattle.parity_table.specs.Accepted.{Kept};
ghost use Rattle.model.specs.Shape.{tree as shape, places};
ghost use Rattle.model.specs.Symbols.{symbol_in, zeros, xor_of, others, sym_at, put_at};
ghost use Rattle.model.specs.Writer.{parities};

use crate::first_place;
use parity_table::{Table, data_count};

// acc, 256 zero bytes, becomes the exclusive-or of those members that are not x. Members are numbers of symbols of a layer, whose first
// symbol stands at place base of the tree; all of them are below a number of symbols that the tree has from there on.
pub fn xor_others(acc: &mut [u8], tree: &[u8], base: usize, members: &[u32], x: usize)
    requires { (acc.old ≡ zeros)
        × ((symbols : ℕ) × (256 * (base + symbols) ≤ length tree.now) × (every (λ y. ltb y symbols) members.now ≡ true)) }
    ensures { acc.new ≡ xor_of (λ y. symbol_in tree.now (base + y)) (others x members.now) }
{
    for &member in members {
        let y = member as usize;
        if y != x {
            octets::xor_at(acc, tree, 256 * (base + y));
        }
    }
}

// Writes symbol x of layer j, a member of the equation, as the exclusive-or of the other members.
fn put_parity(tree: &mut [u8], base: usize, members: &[u32], x: usize, j: usize)
    requires { (base ≡ places shape j) × (256 * (base + n_of j) ≤ length tree.old) × (x < n_of j)
        × (every (λ y. ltb y (n_of j)) members.now ≡ true) }
    ensures { tree.new
        ≡ put_at shape tree.old j x (xor_of (sym_at shape tree.old j) (others x members.now)) }
{
    let mut acc = [0u8; 256];
    xor_others(&mut acc, tree, base, members, x);
    octets::copy_at(&acc, tree, 256 * (base + x));
}

// Writes the parity symbols of layer j, in the order of their equations. The caller knows from the table's depth that it keeps the rules.
pub fn put_parities(tree: &mut [u8], table: &Table, j: usize)
    requires { Kept table.now × (j < table.now.depth) × (256 * (places shape j + n_of j) ≤ length tree.old) }
    ensures { tree.new ≡ parities shape j 0 (layer_of table.now.layers j) tree.old }
{
    let k = data_count(j);
    let base = first_place(j);
    for e in 0..3 * k {
        put_parity(tree, base, table.members(j, e), k + e, j);
    }
}
