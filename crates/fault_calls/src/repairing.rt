// Repairing a tree.
ghost use Rattle.std.specs.Prelude.{◌≡◌, true, ◌&&◌, ◌-◌, ◌*◌, ◌≤◌, length, replicate, Ok};
ghost use Rattle.parity_table.specs.Shape.{max_depth, depth_fits, k_of};
ghost use Rattle.symbol_hash.specs.SymbolHash.{symbol_hash};
ghost use Rattle.model.specs.Shape.{tree as shape, places};
ghost use Rattle.model.specs.Writer.{zero_filled};
ghost use Rattle.model.specs.Repair.{repair as steps};
ghost use Rattle.calls.specs.Tests.{test_marks};
ghost use Rattle.calls.specs.Room.{Room};
ghost use Rattle.repair.specs.Buffers.{Given, Lists, RoomFor};
ghost use Rattle.repair.specs.Reports.{end_of};
ghost use Rattle.fault_calls.specs.Repairing.{repair_sized, ended_by, repaired_by, repaired, outcome_of, leaves};

use crate::Outcome;
use calls::{Stop, admit_by, test_marks, tree_fits};
use parity_table::{MAX_DATA, MAX_EQUATIONS, SHALLOW_DATA, SHALLOW_EQUATIONS, Table, is_deep};
use repair::{End, Report, SearchLists};
use symbol_hash::Kind;
use table_bytes::{MAX_WORDS, SHALLOW_WORDS};

// The lengths of the lists for the search in a layer of the largest depth: an entry for each equation, two for each, one for each symbol, and one for
// each member of an equation, eight at most.
const MAX_IN_LAYER: usize = 3 * MAX_DATA;

const MAX_ORDER: usize = 6 * MAX_DATA;

const MAX_SYMBOLS: usize = 4 * MAX_DATA;

const MAX_SLOTS: usize = 24 * MAX_DATA;

// .. and in a layer of a depth that needs little stack
const SHALLOW_IN_LAYER: usize = 3 * SHALLOW_DATA;

const SHALLOW_ORDER: usize = 6 * SHALLOW_DATA;

const SHALLOW_SYMBOLS: usize = 4 * SHALLOW_DATA;

const SHALLOW_SLOTS: usize = 24 * SHALLOW_DATA;

// Whether the depth is one, and record, tree, marks and output have the lengths of it.
fn sizes_fit(depth: usize, record_len: usize, tree: usize, marks: usize, out: usize) -> bool
    ensures { result ≡ depth_fits depth && repair_sized depth record_len tree marks out }
{
    tree_fits(depth, tree, marks)
        && record_len == root_record::BYTES
        && out == 12 + 256 * (8 * depth - 1)
}

// The end of a repair, of a tree of this depth with a block of n bytes: whole is misfilled where what fills up the block isn't zero.
fn ended(report: Report, depth: usize, tree: &[u8], n: usize) -> Outcome
    requires { (1 ≤ depth) × (depth ≤ max_depth) × (length tree.now ≡ 256 * places shape depth) × (n ≤ 256 * k_of (depth - 1)) }
    ensures { outcome_of (Ok result) ≡ ended_by (zero_filled shape depth n tree.now) report.stored (end_of report.end) }
{
    match report.end {
        End::Whole if !coded_tree::zero_filled(depth, tree, n) => Outcome::Misfilled(report.stored),
        _ => Outcome::Ended(report),
    }
}

// Test 4, then the repair, by a table that is admitted, of a tree of this kind with a block of n bytes.
fn repair_with(
    kind: Kind,
    table: &Table,
    root: &[u8],
    n: usize,
    lists: SearchLists,
    tree: &mut [u8],
    marks: &mut [u8],
    out: &mut [u8],
) -> Result<Outcome, Stop>
    requires { Given table.now.depth root.now tree.old marks.old out.old × (n ≤ 256 * k_of (table.now.depth - 1))
        × RoomFor (k_of (table.now.depth - 1)) lists }
    ensures { leaves (outcome_of result) tree.new marks.new out.new
        ≡ repaired_by (test_marks marks.old) table.now.depth n
        (steps shape (symbol_hash kind) root.now table.now.layers tree.old marks.old out.old)
        tree.old marks.old out.old }
{
    test_marks(marks)?;
    let report = repair::repair(kind, table, root, lists, tree, marks, out);
    Ok(ended(report, table.depth(), tree, n))
}

// repair_tree, with arrays of these lengths for the table's words and index, and for the search in a layer. They are on the stack of a call of this
// function alone.
#[inline(never)]
fn repair_by<
    const WORDS: usize,
    const EQUATIONS: usize,
    const IN_LAYER: usize,
    const ORDER: usize,
    const SYMBOLS: usize,
    const SLOTS: usize,
>(
    depth: usize,
    root_record: &[u8],
    table: &[u8],
    tree: &mut [u8],
    marks: &mut [u8],
    out: &mut [u8],
) -> Result<Outcome, Stop>
    requires room { Room depth (replicate WORDS 0) (replicate EQUATIONS 0) }
    requires lists { depth_fits depth ≡ true
        → Lists (k_of (depth - 1)) (replicate IN_LAYER 0) (replicate IN_LAYER 0) (replicate ORDER 0) (replicate SYMBOLS 0)
        (replicate SLOTS 0) }
    requires most { (WORDS ≤ MAX_WORDS) × (EQUATIONS ≤ MAX_EQUATIONS) × (IN_LAYER ≤ MAX_IN_LAYER) × (ORDER ≤ MAX_ORDER)
        × (SYMBOLS ≤ MAX_SYMBOLS) × (SLOTS ≤ MAX_SLOTS) }
    ensures { leaves (outcome_of result) tree.new marks.new out.new
        ≡ repaired depth root_record.now table.now tree.old marks.old out.old }
{
    let mut words = [0u32; WORDS];
    let mut starts = [0usize; EQUATIONS];
    let sized = sizes_fit(depth, root_record.len(), tree.len(), marks.len(), out.len());
    admit_by(depth, sized, root_record, table, &mut words, &mut starts)?;
    let count = table.len() / 4;
    let table = Table::new(depth, &words[..count], &starts);
    let lists = SearchLists {
        used: &mut [0u8; IN_LAYER],
        absent: &mut [0u8; IN_LAYER],
        order: &mut [0u32; ORDER],
        last: &mut [0u32; SYMBOLS],
        next: &mut [0u32; SLOTS],
    };
    repair_with(
        root_record::kind(root_record),
        &table,
        &root_record[root_record::ROOT_AT..],
        root_record::size(root_record),
        lists,
        tree,
        marks,
        out,
    )
}

// Repairs a tree by a record and a table that comes as bytes: tests 1, 2, 11, 3, 10, 12, 4.
pub fn repair_tree(
    depth: usize,
    root_record: &[u8],
    table: &[u8],
    tree: &mut [u8],
    marks: &mut [u8],
    out: &mut [u8],
) -> Result<Outcome, Stop>
    ensures { leaves (outcome_of result) tree.new marks.new out.new
        ≡ repaired depth root_record.now table.now tree.old marks.old out.old }
{
    if is_deep(depth) {
        return repair_by::<
            MAX_WORDS,
            MAX_EQUATIONS,
            MAX_IN_LAYER,
            MAX_ORDER,
            MAX_SYMBOLS,
            MAX_SLOTS,
        >(depth, root_record, table, tree, marks, out);
    }
    repair_by::<
        SHALLOW_WORDS,
        SHALLOW_EQUATIONS,
        SHALLOW_IN_LAYER,
        SHALLOW_ORDER,
        SHALLOW_SYMBOLS,
        SHALLOW_SLOTS,
    >(depth, root_record, table, tree, marks, out)
}
