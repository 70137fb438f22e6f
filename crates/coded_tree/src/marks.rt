// The marks of a layer: one byte for each symbol, 1 held or 0 absent.
ghost use Rattle.std.specs.Prelude.{◌≡◌, ◌+◌, ◌≤◌, ◌<◌, length};
ghost use Rattle.parity_table.specs.Shape.{max_depth};
ghost use Rattle.model.specs.Shape.{tree as shape, places};
ghost use Rattle.model.specs.Symbols.{found};
ghost use Rattle.model.specs.Repair.{absent_at};

use crate::first_place;

// The lowest of the first n symbols of layer j that isn't marked held, if there is one.
pub fn first_absent(marks: &[u8], j: usize, n: usize) -> Option<usize>
    requires { (j < max_depth) × (places shape j + n ≤ length marks.now) }
    ensures { result ≡ found (absent_at shape marks.now j) n }
{
    let base = first_place(j);
    (0..n).find(|&i| marks[base + i] != 1)
}
