// How a repair ended, as numbers.
ghost use Rattle.std.specs.Prelude.{◌≡◌, ◌^◌, ◌<◌};
ghost use Rattle.model.specs.Repair.{twins};
ghost use Rattle.repair.specs.Reports.{end_of};
ghost use Rattle.fault_calls.specs.Repairing.{end_number, end_value, misfilled_number};

use crate::Ending;
use repair::{End, Report};
use symbol_hash::Kind;

// "ends with 13 in place of whole"
pub fn misfilled(stored: usize) -> Ending
    ensures { (result.end ≡ misfilled_number) × (result.stored ≡ stored) × (result.value ≡ 0) }
{
    Ending {
        end: 13,
        stored,
        value: 0,
    }
}

// The ends by number.
pub fn end_number(end: End) -> usize
    ensures { result ≡ end_number (end_of end) }
{
    match end {
        End::Whole => 0,
        End::Fault { .. } => 1,
        End::Unavailable(_) => 2,
        End::Twins { .. } => 3,
    }
}

// Layer and number of twins in one number, of a volume whose symbols are hashed with their places.
fn twins_value(kind: Kind, layer: usize, number: usize) -> usize
    requires { end_value kind (twins layer number) < 2 ^ 16 }
    ensures { result ≡ end_value kind (twins layer number) }
{
    match kind {
        Kind::Plain => 0,
        Kind::Placed => layer * 4096 + number,
    }
}

// What goes with an end, of a volume of this kind.
fn end_value(kind: Kind, end: End) -> usize
    requires { end_value kind (end_of end) < 2 ^ 16 }
    ensures { result ≡ end_value kind (end_of end) }
{
    match end {
        End::Whole => 0,
        End::Fault { size, .. } => size,
        End::Unavailable(layer) => layer,
        End::Twins { layer, number } => twins_value(kind, layer, number),
    }
}

pub fn ending_of(kind: Kind, r: Report) -> Ending
    requires { end_value kind (end_of r.end) < 2 ^ 16 }
    ensures { (result.end ≡ end_number (end_of r.end)) × (result.stored ≡ r.stored) × (result.value ≡ end_value kind (end_of r.end)) }
{
    Ending {
        end: end_number(r.end),
        stored: r.stored,
        value: end_value(kind, r.end),
    }
}
