// Taking a sample.
ghost use Rattle.std.specs.Prelude.{◌≡◌, ◌&&◌};
ghost use Rattle.parity_table.specs.Shape.{depth_fits};
ghost use Rattle.sample_calls.specs.Taking.{take_sized, take_tested, sample_taken, leaves};

use calls::{Stop, enter, test_marks, test_number, tree_fits};

// Whether the depth is one, and tree, marks and sample have the lengths of it.
fn sizes_fit(depth: usize, tree: usize, marks: usize, sample: usize) -> bool
    ensures { result ≡ depth_fits depth && take_sized depth tree marks sample }
{
    tree_fits(depth, tree, marks) && sample == 256 * (2 * depth - 1)
}

// Tests 1, 2, 4, 5, 9, of a tree and a sample of so many bytes.
fn tests(depth: usize, number: usize, tree: usize, marks: &[u8], sample: usize) -> Result<(), Stop>
    ensures { result ≡ take_tested depth number tree marks.now sample }
{
    enter(depth, sizes_fit(depth, tree, marks.len(), sample))?;
    test_marks(marks)?;
    test_number(depth, number)?;
    match sampling::first_absent(depth, number, marks) {
        Some(x) => Err(Stop::Absent(x)),
        None => Ok(()),
    }
}

// Takes a sample of the base symbol of this number: tests 1, 2, 4, 5, 9.
pub fn take(
    depth: usize,
    number: usize,
    tree: &[u8],
    marks: &[u8],
    sample: &mut [u8],
) -> Result<(), Stop>
    ensures { leaves result sample.new ≡ sample_taken depth number tree.now marks.now sample.old }
{
    tests(depth, number, tree.len(), marks, sample.len())?;
    sampling::take(depth, number, tree, sample);
    Ok(())
}
