// The way up from a symbol: each symbol is hashed once, and its hash compared where the root or the next
// symbol up has it.
ghost use Rattle.std.specs.Prelude.{◌≡◌, suc, ◌+◌, ◌*◌, ◌≤◌, ◌<◌, length, drop};
ghost use Rattle.parity_table.specs.Shape.{max_depth};
ghost use Rattle.model.specs.Shape.{tree as shape};
ghost use Rattle.model.specs.Fault.{way_check, path_check};
ghost use Rattle.symbol_hash.specs.SymbolHash.{symbol_hash};
ghost use Rattle.symbol_hash.specs.Ways.{climb_of};

use parity_table::data_count;
use symbol_hash::{Broken, Kind};

// Checks symbol i of layer j with its path, which stand in b from byte at on.
pub fn check(kind: Kind, j: usize, i: usize, root: &[u8], b: &[u8], at: usize) -> Result<(), Broken>
    requires { (j < max_depth) × (j ≡ 0 → 32 * suc i ≤ length root.now) × (0 < j → (i < shape.n j) × (512 ≤ length root.now))
        × (at + 256 * suc j ≤ length b.now) }
    ensures { climb_of result ≡ way_check shape (symbol_hash kind) root.now j i (drop at b.now) }
{
    let mut m = i;
    for x in 0..=j {
        let from = at + 256 * x;
        let to = from + 256;
        if !symbol_hash::fits(kind, j - x, m, &b[from..to], root, b, to) {
            return Err(Broken { layer: j - x });
        }
        if x < j {
            m %= data_count(j - x - 1);
        }
    }
    Ok(())
}

// Checks the path of symbol i of layer j, which stands in b from byte at on.
pub fn check_path(
    kind: Kind,
    j: usize,
    i: usize,
    root: &[u8],
    b: &[u8],
    at: usize,
) -> Result<(), Broken>
    requires { (j < max_depth) × (0 < j → 512 ≤ length root.now) × (at + 256 * j ≤ length b.now) }
    ensures { climb_of result ≡ path_check shape (symbol_hash kind) root.now j i (drop at b.now) }
{
    if j == 0 {
        return Ok(());
    }
    check(kind, j - 1, i % data_count(j - 1), root, b, at)
}
