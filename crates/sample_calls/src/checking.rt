// Checking a sample.
ghost use Rattle.std.specs.Prelude.{◌≡◌, ◌&&◌};
ghost use Rattle.parity_table.specs.Shape.{depth_fits};
ghost use Rattle.sample_calls.specs.Checking.{check_sized, check_tested, sample_checked};

use calls::{Stop, enter_by, test_number};
use parity_table::depth_fits;

// Whether the depth is one, and record and sample have the lengths of it.
fn sizes_fit(depth: usize, record_len: usize, sample: usize) -> bool
    ensures { result ≡ depth_fits depth && check_sized depth record_len sample }
{
    depth_fits(depth) && record_len == root_record::BYTES && sample == 256 * (2 * depth - 1)
}

// Tests 1, 2, 11, 5, of a sample of so many bytes.
fn tests(depth: usize, number: usize, root_record: &[u8], sample: usize) -> Result<(), Stop>
    ensures { result ≡ check_tested depth number root_record.now sample }
{
    let sized = sizes_fit(depth, root_record.len(), sample);
    enter_by(depth, sized, root_record)?;
    test_number(depth, number)
}

// Checks a sample of the base symbol of this number against the record: tests 1, 2, 11, 5, 7.
pub fn check(depth: usize, number: usize, root_record: &[u8], sample: &[u8]) -> Result<(), Stop>
    ensures { result ≡ sample_checked depth number root_record.now sample.now }
{
    tests(depth, number, root_record, sample.len())?;
    let kind = root_record::kind(root_record);
    let root = &root_record[root_record::ROOT_AT..];
    sampling::check(kind, depth, number, root, sample).map_err(|broken| Stop::Hash {
        layer: broken.layer,
        position: 0,
    })
}
