// One turn of (b): an equation with at most one absent member is taken.
ghost use Rattle.std.specs.Prelude.{◌≡◌, true};
ghost use Rattle.std.specs.List.{find};
ghost use Rattle.octets.specs.ByteLists.{same};
ghost use Rattle.model.specs.Shape.{tree as shape};
ghost use Rattle.model.specs.Symbols.{xor_of, zeros, sym_at};
ghost use Rattle.model.specs.Repair.{absent_at};
ghost use Rattle.fault_writer.specs.Room.{Members};
ghost use Rattle.equation.specs.Rooms.{Workable, Turnable, Stands, members_at};
ghost use Rattle.equation.specs.Turns.{Took, Refuted, few};

use crate::Turn;
use crate::absent::first_absent;
use crate::committed::fits;
use coded_tree::{first_place, xor_others};
use fault_writer::{put_proof, put_symbol};
use parity_table::index;
use symbol_hash::Kind;

// "One absent: form it from the others; if its hash fits, store and mark it, else write a fault proof withholding it and stop." It is x.
fn form(
    kind: Kind,
    root: &[u8],
    members: &[u32],
    tree: &mut [u8],
    marks: &mut [u8],
    out: &mut [u8],
    used: &mut [u8],
    j: usize,
    e: usize,
    x: usize,
) -> Turn
    requires { Turnable root.now members.now tree.old marks.old out.old used.old j e
        × (find (absent_at shape marks.old j) members.now ≡ Some x) }
    ensures { Took kind root.now members.now j e tree.old marks.old out.old
        used.old tree.new marks.new out.new used.new result }
{
    let base = first_place(j);
    let mut v = [0u8; 256];
    xor_others(&mut v, tree, base, members, x);
    if fits(kind, root, tree, j, x, &v) {
        let p = base + x;
        octets::copy_at(&v, tree, 256 * p);
        marks[p] = 1;
        used[e] = 1;
        return Turn::Stored(x);
    }
    let size = put_proof(tree, members, j, e, x, out);
    Turn::Fault { withheld: x, size }
}

// "None absent and the equation fails: withhold the last member; write a fault proof and stop, or, if the hash of the others' exclusive-or
// equals the committed one, write "twins" (the held symbol, then that exclusive-or) and stop."
fn refute(
    kind: Kind,
    root: &[u8],
    members: &[u32],
    tree: &[u8],
    out: &mut [u8],
    j: usize,
    e: usize,
) -> Turn
    requires { Workable root.now members.now tree.now out.old j e }
    ensures { Refuted kind root.now members.now j e tree.now out.old out.new result }
{
    let x = members[members.len() - 1] as usize;
    let mut v = [0u8; 256];
    xor_others(&mut v, tree, first_place(j), members, x);
    if fits(kind, root, tree, j, x, &v) {
        put_symbol(tree, j, x, out, 0);
        octets::copy_at(&v, out, 256);
        return Turn::Twins(x);
    }
    let size = put_proof(tree, members, j, e, x, out);
    Turn::Fault { withheld: x, size }
}

// Whether the exclusive-or of the members is 256 zero bytes.
pub fn holds(members: &[u32], tree: &[u8], j: usize) -> bool
    requires { Members j tree.now members.now }
    ensures { result ≡ same (xor_of (sym_at shape tree.now j) members.now) zeros }
{
    let base = first_place(j);
    let mut sum = [0u8; 256];
    for &y in members {
        octets::xor_at(&mut sum, tree, 256 * (base + y as usize));
    }
    octets::is_zero(&sum)
}

// Takes equation e of layer j by its members, of which at most one is absent.
fn settle(
    kind: Kind,
    root: &[u8],
    members: &[u32],
    tree: &mut [u8],
    marks: &mut [u8],
    out: &mut [u8],
    used: &mut [u8],
    j: usize,
    e: usize,
) -> Turn
    requires { Turnable root.now members.now tree.old marks.old out.old used.old j e
        × (few j marks.old members.now ≡ true) }
    ensures { Took kind root.now members.now j e tree.old marks.old out.old
        used.old tree.new marks.new out.new used.new result }
{
    if let Some(x) = first_absent(members, marks, j) {
        return form(kind, root, members, tree, marks, out, used, j, e, x);
    }
    if holds(members, tree, j) {
        used[e] = 1;
        return Turn::Used;
    }
    refute(kind, root, members, tree, out, j, e)
}

// Takes equation e of layer j, whose members start at starts[number] of the words. At most one of them is absent.
pub fn take(
    kind: Kind,
    root: &[u8],
    words: &[u32],
    starts: &[usize],
    number: usize,
    tree: &mut [u8],
    marks: &mut [u8],
    out: &mut [u8],
    used: &mut [u8],
    j: usize,
    e: usize,
) -> Turn
    requires { Stands words.now starts.now number
        × Turnable root.now (members_at words.now starts.now number) tree.old marks.old out.old used.old j e
        × (few j marks.old (members_at words.now starts.now number) ≡ true) }
    ensures { Took kind root.now (members_at words.now starts.now number) j e tree.old
        marks.old out.old used.old tree.new marks.new out.new used.new result }
{
    let at = starts[number];
    let size = index::count_members(words, at);
    settle(
        kind,
        root,
        &words[at..at + size],
        tree,
        marks,
        out,
        used,
        j,
        e,
    )
}
