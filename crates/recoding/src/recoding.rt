// Coding a volume anew.
ghost use Rattle.std.specs.Prelude.{◌≡◌, ◌&&◌, ◌-◌, ◌*◌, ◌≤◌, take, replicate};
ghost use Rattle.parity_table.specs.Shape.{depth_fits, k_of};
ghost use Rattle.symbol_hash.specs.SymbolHash.{symbol_hash};
ghost use Rattle.model.specs.Shape.{tree as shape};
ghost use Rattle.model.specs.Writer.{block_of, zero_filled};
ghost use Rattle.model.specs.Look.{intact};
ghost use Rattle.calls.specs.Tests.{◌then◌, test_marks};
ghost use Rattle.calls.specs.Room.{Room};
ghost use Rattle.volume_calls.specs.Writing.{leaves, written_by};
ghost use Rattle.recoding.specs.Look.{Lent};
ghost use Rattle.recoding.specs.Recoding.{other_kind, recode_sized, test_whole, recoded, Recodable};

use crate::look::is_intact;
use calls::{Stop, admit_by, test_marks, tree_fits};
use coded_tree::{first_place, zero_filled};
use parity_table::{MAX_EQUATIONS, SHALLOW_EQUATIONS, Table, is_deep};
use symbol_hash::Kind;
use table_bytes::{MAX_WORDS, SHALLOW_WORDS};
use volume_calls::write_with;

// The other kind.
fn other(kind: Kind) -> Kind
    ensures { result ≡ other_kind kind }
{
    match kind {
        Kind::Plain => Kind::Placed,
        Kind::Placed => Kind::Plain,
    }
}

// Whether the depth is one, and both trees, marks and records have the lengths of it.
fn sizes_fit(
    depth: usize,
    record_len: usize,
    tree: usize,
    marks: usize,
    new_tree: usize,
    new_marks: usize,
    new_record_len: usize,
) -> bool
    ensures { result ≡ depth_fits depth && recode_sized depth record_len tree marks new_tree new_marks new_record_len }
{
    tree_fits(depth, tree, marks)
        && tree_fits(depth, new_tree, new_marks)
        && record_len == root_record::BYTES
        && new_record_len == root_record::BYTES
}

// Tests 4 and 14, of a tree of this kind with a block of n bytes.
fn test_source(
    kind: Kind,
    table: &Table,
    root: &[u8],
    n: usize,
    tree: &[u8],
    marks: &[u8],
) -> Result<(), Stop>
    requires { Lent table.now.depth root.now tree.now marks.now × (n ≤ 256 * k_of (table.now.depth - 1)) }
    ensures { result ≡ (test_marks marks.now
        then test_whole
        (intact shape (symbol_hash kind) root.now table.now.layers tree.now marks.now
        && zero_filled shape table.now.depth n tree.now)) }
{
    test_marks(marks)?;
    let depth = table.depth();
    if !is_intact(kind, table, root, tree, marks) || !zero_filled(depth, tree, n) {
        return Err(Stop::NotWhole);
    }
    Ok(())
}

// Tests 4 and 14, then the writing, by a table that is admitted and its bytes, of a source of this kind with a block of n bytes.
fn recode_with(
    kind: Kind,
    table: &Table,
    bytes: &[u8],
    root: &[u8],
    n: usize,
    tree: &[u8],
    marks: &[u8],
    new_tree: &mut [u8],
    new_marks: &mut [u8],
    new_record: &mut [u8],
) -> Result<(), Stop>
    requires { Recodable table.now n bytes.now root.now tree.now marks.now new_tree.old new_marks.old new_record.old }
    ensures { leaves result new_tree.new new_marks.new new_record.new
        ≡ written_by
        (test_marks marks.now
        then test_whole
        (intact shape (symbol_hash kind) root.now table.now.layers tree.now marks.now
        && zero_filled shape table.now.depth n tree.now))
        table.now.depth (other_kind kind) bytes.now (take n (block_of shape table.now.depth tree.now)) new_tree.old
        new_marks.old new_record.old }
{
    test_source(kind, table, root, n, tree, marks)?;
    let from = 256 * first_place(table.depth() - 1);
    let to = from + n;
    write_with(
        other(kind),
        table,
        bytes,
        &tree[from..to],
        new_tree,
        new_marks,
        new_record,
    );
    Ok(())
}

// recode, with arrays of these lengths for the table's words and index. They are on the stack of a call of this function alone.
#[inline(never)]
fn recode_by<const WORDS: usize, const EQUATIONS: usize>(
    depth: usize,
    root_record: &[u8],
    table: &[u8],
    tree: &[u8],
    marks: &[u8],
    new_tree: &mut [u8],
    new_marks: &mut [u8],
    new_record: &mut [u8],
) -> Result<(), Stop>
    requires room { Room depth (replicate WORDS 0) (replicate EQUATIONS 0) }
    requires most { (WORDS ≤ MAX_WORDS) × (EQUATIONS ≤ MAX_EQUATIONS) }
    ensures { leaves result new_tree.new new_marks.new new_record.new
        ≡ recoded depth root_record.now table.now tree.now marks.now new_tree.old
        new_marks.old new_record.old }
{
    let mut words = [0u32; WORDS];
    let mut starts = [0usize; EQUATIONS];
    let sized = sizes_fit(
        depth,
        root_record.len(),
        tree.len(),
        marks.len(),
        new_tree.len(),
        new_marks.len(),
        new_record.len(),
    );
    admit_by(depth, sized, root_record, table, &mut words, &mut starts)?;
    let count = table.len() / 4;
    let accepted = Table::new(depth, &words[..count], &starts);
    recode_with(
        root_record::kind(root_record),
        &accepted,
        table,
        &root_record[root_record::ROOT_AT..],
        root_record::size(root_record),
        tree,
        marks,
        new_tree,
        new_marks,
        new_record,
    )
}

// Writes the source's block as a volume of the other kind, by the source's record and a table that comes as bytes: tests 1, 2, 11, 3, 10, 12, 4, 14.
// The source is only read.
pub fn recode(
    depth: usize,
    root_record: &[u8],
    table: &[u8],
    tree: &[u8],
    marks: &[u8],
    new_tree: &mut [u8],
    new_marks: &mut [u8],
    new_record: &mut [u8],
) -> Result<(), Stop>
    ensures { leaves result new_tree.new new_marks.new new_record.new
        ≡ recoded depth root_record.now table.now tree.now marks.now new_tree.old
        new_marks.old new_record.old }
{
    if is_deep(depth) {
        return recode_by::<MAX_WORDS, MAX_EQUATIONS>(
            depth,
            root_record,
            table,
            tree,
            marks,
            new_tree,
            new_marks,
            new_record,
        );
    }
    recode_by::<SHALLOW_WORDS, SHALLOW_EQUATIONS>(
        depth,
        root_record,
        table,
        tree,
        marks,
        new_tree,
        new_marks,
        new_record,
    )
}
