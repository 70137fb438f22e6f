// The whole fault proof: its head, the given members with their paths, and the withheld member's path.
ghost use Rattle.std.specs.Prelude.{◌≡◌, suc, ◌+◌, ◌*◌, ◌^◌, ◌≤◌, ◌<◌, length};
ghost use Rattle.parity_table.specs.Parse.{over};
ghost use Rattle.model.specs.Shape.{Shape, Hangs, tree as shape};
ghost use Rattle.model.specs.Symbols.{others, sym_at};
ghost use Rattle.model.specs.Fault.{given_bytes, proof_bytes};
ghost use Rattle.fault_writer.specs.Room.{splice, Members};

use crate::way::{put_path, put_way};

// The members other than x, each with its path; where they end.
fn put_given(tree: &[u8], members: &[u32], x: usize, j: usize, out: &mut [u8], at: usize) -> usize
    requires { Members j tree.now members.now
        × (at + length (given_bytes shape (sym_at shape tree.now) j (others x members.now)) ≤ length out.old) }
    ensures { (result ≡ at + length (given_bytes shape (sym_at shape tree.now) j (others x members.now)))
        × (out.new
        ≡ splice out.old at (given_bytes shape (sym_at shape tree.now) j (others x members.now))) }
{
    let mut p = at;
    for &member in members {
        let y = member as usize;
        if y != x {
            put_way(tree, j, y, out, p);
            p += 256 * (j + 1);
        }
    }
    p
}

// Writes the fault proof of equation e of layer j, which has these members, withholding x, from the start of out; its length.
pub fn put_proof(
    tree: &[u8],
    members: &[u32],
    j: usize,
    e: usize,
    x: usize,
    out: &mut [u8],
) -> usize
    requires { Members j tree.now members.now × (e < 2 ^ 30) × (x < 2 ^ 30)
        × (12 + 256 * (length (others x members.now) * suc j + j) ≤ length out.old) }
    ensures { (S : Shape) → Hangs S j
        → (result ≡ length (proof_bytes S (sym_at S tree.now) j e x members.now))
        × (out.new ≡ over (proof_bytes S (sym_at S tree.now) j e x members.now) out.old) }
{
    heads::put(1, j, e, x, out);
    let p = put_given(tree, members, x, j, out, 12);
    put_path(tree, j, x, out, p);
    p + 256 * j
}
