// Reading a block back.
ghost use Rattle.std.specs.Prelude.{◌≡◌, ◌&&◌, ◌≤◌, length};
ghost use Rattle.parity_table.specs.Shape.{depth_fits, max_depth};
ghost use Rattle.model.specs.Shape.{tree as shape, places};
ghost use Rattle.volume_calls.specs.Reading.{read_sized, test_base, block_tested, block_read, leaves};

use calls::{Stop, enter_by, test_marks, tree_fits};
use parity_table::data_count;

// Whether the depth is one, and record, tree, marks and block have the lengths of it.
fn sizes_fit(depth: usize, record_len: usize, tree: usize, marks: usize, block: usize) -> bool
    ensures { result ≡ depth_fits depth && read_sized depth record_len tree marks block }
{
    tree_fits(depth, tree, marks)
        && record_len == root_record::BYTES
        && block == 256 * data_count(depth - 1)
}

// Test 9: the base's first absent data symbol.
fn test_base(depth: usize, marks: &[u8]) -> Result<(), Stop>
    requires { (1 ≤ depth) × (depth ≤ max_depth) × (length marks.now ≡ places shape depth) }
    ensures { result ≡ test_base depth marks.now }
{
    let k = data_count(depth - 1);
    match coded_tree::first_absent(marks, depth - 1, k) {
        Some(x) => Err(Stop::Absent(x)),
        None => Ok(()),
    }
}

// Tests 1, 2, 11, 4, 9.
fn tests(
    depth: usize,
    root_record: &[u8],
    tree: usize,
    marks: &[u8],
    block: usize,
) -> Result<(), Stop>
    ensures { result ≡ block_tested depth root_record.now tree marks.now block }
{
    let sized = sizes_fit(depth, root_record.len(), tree, marks.len(), block);
    enter_by(depth, sized, root_record)?;
    test_marks(marks)?;
    test_base(depth, marks)
}

// Copies the block out of a tree, as many bytes as the record says: tests 1, 2, 11, 4, 9.
pub fn read_block(
    depth: usize,
    root_record: &[u8],
    tree: &[u8],
    marks: &[u8],
    block: &mut [u8],
) -> Result<(), Stop>
    ensures { leaves result block.new
        ≡ block_read depth root_record.now tree.now marks.now block.old }
{
    tests(depth, root_record, tree.len(), marks, block.len())?;
    let n = root_record::size(root_record);
    coded_tree::read_block(depth, tree, &mut block[..n]);
    Ok(())
}
