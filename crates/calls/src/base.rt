// Test 5: the number of a base symbol.
ghost use Rattle.std.specs.Prelude.{◌≡◌, ◌≤◌};
ghost use Rattle.parity_table.specs.Shape.{max_depth};
ghost use Rattle.calls.specs.Tests.{test_number};

use crate::Stop;
use parity_table::data_count;

pub fn test_number(depth: usize, number: usize) -> Result<(), Stop>
    requires { (1 ≤ depth) × (depth ≤ max_depth) }
    ensures { result ≡ test_number depth number }
{
    if number >= 4 * data_count(depth - 1) {
        return Err(Stop::Number);
    }
    Ok(())
}
