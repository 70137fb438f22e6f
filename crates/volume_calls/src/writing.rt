// Writing a tree.
ghost use Rattle.std.specs.Prelude.{◌≡◌, ◌&&◌, ◌≤◌, replicate};
ghost use Rattle.parity_table.specs.Shape.{depth_fits};
ghost use Rattle.calls.specs.Room.{Room};
ghost use Rattle.calls.specs.Stops.{Done};
ghost use Rattle.calls.specs.Tests.{opened};
ghost use Rattle.table_bytes.specs.Bytes.{length_fits};
ghost use Rattle.volume_calls.specs.Writing.{Writable, write_sized, written_by, tree_written, tree_written_by, leaves};

use calls::{Stop, admit, enter, tree_fits};
use parity_table::{MAX_EQUATIONS, SHALLOW_EQUATIONS, Table, data_count, is_deep};
use symbol_hash::Kind;
use table_bytes::{MAX_WORDS, SHALLOW_WORDS, length_fits};

// Whether the depth is one, and block, tree, marks and record have the lengths of it.
fn sizes_fit(depth: usize, block: usize, tree: usize, marks: usize, record_len: usize) -> bool
    ensures { result ≡ depth_fits depth && write_sized depth block tree marks record_len }
{
    tree_fits(depth, tree, marks)
        && block <= 256 * data_count(depth - 1)
        && record_len == root_record::BYTES
}

// Writes the tree of a block, as a volume of this kind, its marks and its record, by a table that is admitted and its bytes.
pub fn write_with(
    kind: Kind,
    table: &Table,
    bytes: &[u8],
    block: &[u8],
    tree: &mut [u8],
    marks: &mut [u8],
    root_record: &mut [u8],
)
    requires { Writable table.now bytes.now block.now tree.old marks.old root_record.old }
    ensures { leaves Done tree.new marks.new root_record.new
        ≡ written_by Done table.now.depth kind bytes.now block.now tree.old marks.old root_record.old }
{
    coded_tree::write(
        kind,
        table,
        block,
        tree,
        marks,
        &mut root_record[root_record::ROOT_AT..],
    );
    root_record::put(kind, table.depth(), block.len(), bytes, root_record);
}

// write_tree, with room for so many words and so many entries of the index, which is on the stack of a call of this function alone.
#[inline(never)]
fn write_by<const WORDS: usize, const EQUATIONS: usize>(
    depth: usize,
    kind: Kind,
    table: &[u8],
    block: &[u8],
    tree: &mut [u8],
    marks: &mut [u8],
    root_record: &mut [u8],
) -> Result<(), Stop>
    requires room { Room depth (replicate WORDS 0) (replicate EQUATIONS 0) }
    requires most { WORDS ≤ MAX_WORDS × EQUATIONS ≤ MAX_EQUATIONS }
    ensures { leaves result tree.new marks.new root_record.new
        ≡ tree_written depth kind table.now block.now tree.old marks.old root_record.old }
{
    let mut words = [0u32; WORDS];
    let mut starts = [0usize; EQUATIONS];
    let sized = sizes_fit(
        depth,
        block.len(),
        tree.len(),
        marks.len(),
        root_record.len(),
    );
    admit(depth, sized, table, &mut words, &mut starts)?;
    let n = table.len() / 4;
    let accepted = Table::new(depth, &words[..n], &starts);
    write_with(kind, &accepted, table, block, tree, marks, root_record);
    Ok(())
}

// Writes the tree of a block, as a volume of this kind, its marks and its record, by a table that comes as bytes: tests 1, 2, 3, 10.
pub fn write_tree(
    depth: usize,
    kind: Kind,
    table: &[u8],
    block: &[u8],
    tree: &mut [u8],
    marks: &mut [u8],
    root_record: &mut [u8],
) -> Result<(), Stop>
    ensures { leaves result tree.new marks.new root_record.new
        ≡ tree_written depth kind table.now block.now tree.old marks.old root_record.old }
{
    if is_deep(depth) {
        return write_by::<MAX_WORDS, MAX_EQUATIONS>(
            depth,
            kind,
            table,
            block,
            tree,
            marks,
            root_record,
        );
    }
    write_by::<SHALLOW_WORDS, SHALLOW_EQUATIONS>(
        depth,
        kind,
        table,
        block,
        tree,
        marks,
        root_record,
    )
}

// Tests 1 and 2, of buffers of these lengths.
fn test_lengths(
    depth: usize,
    table: usize,
    block: usize,
    tree: usize,
    marks: usize,
    record_len: usize,
) -> Result<(), Stop>
    ensures { result ≡ opened depth (write_sized depth block tree marks record_len && length_fits table) }
{
    enter(
        depth,
        sizes_fit(depth, block, tree, marks, record_len) && length_fits(table),
    )
}

// write_tree, of a volume whose kind comes as a number, 0 or 1: tests 1, 2, 11, 3, 10.
pub fn write_tree_by(
    depth: usize,
    number: u64,
    table: &[u8],
    block: &[u8],
    tree: &mut [u8],
    marks: &mut [u8],
    root_record: &mut [u8],
) -> Result<(), Stop>
    ensures { leaves result tree.new marks.new root_record.new
        ≡ tree_written_by depth number table.now block.now tree.old marks.old root_record.old }
{
    if let Ok(kind) = Kind::try_from(number) {
        return write_tree(depth, kind, table, block, tree, marks, root_record);
    }
    test_lengths(
        depth,
        table.len(),
        block.len(),
        tree.len(),
        marks.len(),
        root_record.len(),
    )?;
    Err(Stop::Record)
}
