// One layer of a repair: (a) the sweep, (b) peeling, (c) "gaps left mean "unavailable" with this layer, else go on".
ghost use Rattle.std.specs.Prelude.{◌≡◌, ℕ, suc, ◌+◌, ◌*◌, ◌^◌, ◌<◌, ◌≤◌, length, replicate};
ghost use Rattle.parity_table.specs.Shape.{max_depth, k_of};
ghost use Rattle.model.specs.Shape.{tree as shape, places};
ghost use Rattle.incidence.specs.Incidence.{Threadable, Threaded};
ghost use Rattle.peeling.specs.Search.{Countable, Counted, Ordered};
ghost use Rattle.repair.specs.Buffers.{Given, OwnLists, RoomFor, SameLists};
ghost use Rattle.peeling.specs.States.{refuted as refuted_as};
ghost use Rattle.repair.specs.Reports.{end_of, passes, settled, Layered};

use crate::{End, SearchLists};
use parity_table::{Table, data_count, index};
use peeling::{Refutation, peel_layer, prepare, sweep_layer};
use symbol_hash::Kind;

// The end of the repair, if it ends at this layer, and the symbols stored so far.
#[derive(Clone, Copy, Debug, PartialEq, Eq)]
pub struct Passed {
    pub stored: usize,
    pub end: Option<End>,
}

// The end that a refutation of layer j is.
fn refuted(refutation: Refutation, j: usize) -> End
    ensures { end_of result ≡ refuted_as j refutation }
{
    match refutation {
        Refutation::Fault {
            equation,
            withheld,
            size,
        } => End::Fault {
            layer: j,
            equation,
            withheld,
            size,
        },
        Refutation::Twins(number) => End::Twins { layer: j, number },
    }
}

// (c) for layer j: the end that it comes to, if any, by the outcome of its peeling.
fn settle(outcome: Result<(), Refutation>, marks: &[u8], j: usize) -> Option<End>
    requires { (j < max_depth) × (places shape (suc j) ≤ length marks.now) }
    ensures { passes result ≡ settled outcome marks.now j }
{
    match outcome {
        Ok(()) => {
            let n = 4 * data_count(j);
            coded_tree::first_absent(marks, j, n).map(|_| End::Unavailable(j))
        }
        Err(refutation) => Some(refuted(refutation, j)),
    }
}

// The lists of a search in layer j, before its first equation is taken.
fn set_up(
    words: &[u32],
    starts: &[usize],
    from: usize,
    marks: &[u8],
    lists: &mut SearchLists,
    j: usize,
)
    requires { Threadable words.now starts.now from (length lists.old.used.now) (length lists.old.last.now) (length lists.old.next.now)
        × Countable words.now starts.now from j (length lists.old.used.now) marks.now
        × (length lists.old.absent.now ≡ length lists.old.used.now) × (length lists.old.order.now ≡ 2 * length lists.old.used.now) }
    ensures { (lists.new.used.now ≡ replicate (length lists.old.used.now) 0)
        × Threaded words.now starts.now from (length lists.new.used.now) lists.new.last.now lists.new.next.now
        × Counted words.now starts.now from j (length lists.new.used.now) marks.now lists.new.absent.now
        × Ordered lists.new.used.now lists.new.absent.now 0 lists.new.order.now × SameLists lists.old lists.new }
{
    let used = &mut *lists.used;
    used.fill(0);
    incidence::fill(words, starts, from, used.len(), lists.last, lists.next);
    prepare(
        words,
        starts,
        from,
        marks,
        used,
        lists.absent,
        lists.order,
        j,
    );
}

// repair_layer, with lists that have just the entries of this layer: of its symbols `last`, of its equations the others, two in `order`.
fn repair_with(
    kind: Kind,
    table: &Table,
    root: &[u8],
    lists: &mut SearchLists,
    tree: &mut [u8],
    marks: &mut [u8],
    out: &mut [u8],
    j: usize,
    stored: usize,
) -> Passed
    requires { Given table.now.depth root.now tree.old marks.old out.old × (j < table.now.depth) × (stored ≤ 2 ^ 20)
        × OwnLists j lists.old }
    ensures { Layered kind root.now table.now.layers j tree.old marks.old out.old
        tree.new marks.new out.new stored result.stored result.end
        × (result.stored ≤ stored + 3 * k_of j) }
{
    let (words, starts) = table.parts();
    let from = index::number_of(j, 0);
    sweep_layer(kind, root, tree, marks, j, lists.last.len());
    set_up(words, starts, from, marks, lists, j);
    let used = &mut *lists.used;
    let absent = &mut *lists.absent;
    let order = &mut *lists.order;
    let last = &mut *lists.last;
    let next = &mut *lists.next;
    let run = peel_layer(
        kind, root, words, starts, from, last, next, tree, marks, out, used, absent, order, j,
        stored,
    );
    Passed {
        stored: run.stored,
        end: settle(run.outcome, marks, j),
    }
}

// Repairs layer j, with so many symbols stored before. What the lists for the search hold doesn't matter.
pub fn repair_layer(
    kind: Kind,
    table: &Table,
    root: &[u8],
    lists: SearchLists,
    tree: &mut [u8],
    marks: &mut [u8],
    out: &mut [u8],
    j: usize,
    stored: usize,
) -> Passed
    requires { Given table.now.depth root.now tree.old marks.old out.old × (j < table.now.depth) × (stored ≤ 2 ^ 20)
        × RoomFor (k_of j) lists }
    ensures { Layered kind root.now table.now.layers j tree.old marks.old out.old
        tree.new marks.new out.new stored result.stored result.end
        × (result.stored ≤ stored + 3 * k_of j) }
{
    let SearchLists {
        used,
        absent,
        order,
        last,
        next,
    } = lists;
    // the depth is a tree's, and so j one of its layers
    prove!(j < table.depth());
    let k = data_count(j);
    let n = 3 * k;
    let mut own = SearchLists {
        used: &mut used[..n],
        absent: &mut absent[..n],
        order: &mut order[..2 * n],
        last: &mut last[..4 * k],
        next: &mut *next,
    };
    // named, so that the fronts come back before the lists do
    let passed = repair_with(kind, table, root, &mut own, tree, marks, out, j, stored);
    passed
}
