// An answer as numbers.
ghost use Rattle.std.specs.Prelude.{◌≡◌};
ghost use Rattle.calls.specs.Stops.{number_of, values_of};

use crate::{Numbers, Stop};

// A number with its values, 0 for one that it hasn't. A function, so that each case below is a line.
fn with(number: usize, first: usize, second: usize) -> Numbers
    ensures { (result.number ≡ number) × (result.first ≡ first) × (result.second ≡ second) }
{
    Numbers {
        number,
        first,
        second,
    }
}

fn of_stop(s: Stop) -> Numbers
    ensures { (result.number ≡ number_of (Err s)) × (result.first ≡ (values_of (Err s)).0)
        × (result.second ≡ (values_of (Err s)).1) }
{
    match s {
        Stop::Depth => with(1, 0, 0),
        Stop::Length => with(2, 0, 0),
        Stop::Table(i) => with(3, i, 0),
        Stop::Mark(p) => with(4, p, 0),
        Stop::Number => with(5, 0, 0),
        Stop::Head => with(6, 0, 0),
        Stop::Hash { layer, position } => with(7, layer, position),
        Stop::NoFault => with(8, 0, 0),
        Stop::Absent(x) => with(9, x, 0),
        Stop::Uncovered { layer, symbol } => with(10, layer, symbol),
        Stop::Record => with(11, 0, 0),
        Stop::OtherTable => with(12, 0, 0),
        Stop::NotWhole => with(14, 0, 0),
    }
}

pub fn numbers_of(a: Result<(), Stop>) -> Numbers
    ensures { (result.number ≡ number_of a) × (result.first ≡ (values_of a).0) × (result.second ≡ (values_of a).1) }
{
    match a {
        Ok(()) => with(0, 0, 0),
        Err(s) => of_stop(s),
    }
}
