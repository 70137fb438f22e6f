// Tests 11 and 12: a record's head, and the table that it names.
ghost use Rattle.std.specs.Prelude.{◌≡◌, ◌≤◌, length};
ghost use Rattle.sha256.specs.Call.{longest};
ghost use Rattle.parity_table.specs.Shape.{max_depth};
ghost use Rattle.calls.specs.Tests.{test_head, test_named};

use crate::Stop;
use root_record::{head_right, names_table};

pub fn test_head(depth: usize, root_record: &[u8]) -> Result<(), Stop>
    requires { (1 ≤ depth) × (depth ≤ max_depth) × (length root_record.now ≡ 556) }
    ensures { result ≡ test_head depth root_record.now }
{
    if !head_right(depth, root_record) {
        return Err(Stop::Record);
    }
    Ok(())
}

pub fn test_named(root_record: &[u8], table: &[u8]) -> Result<(), Stop>
    requires { (length root_record.now ≡ 556) × (length table.now ≤ longest) }
    ensures { result ≡ test_named root_record.now table.now }
{
    if !names_table(root_record, table) {
        return Err(Stop::OtherTable);
    }
    Ok(())
}
