// Where the committed hash of a symbol stands, and whether the symbol has it.
ghost use Rattle.std.specs.Prelude.{◌≡◌, suc, ◌+◌, ◌*◌, ◌≤◌, ◌<◌, length, drop};
ghost use Rattle.octets.specs.ByteLists.{same};
ghost use Rattle.parity_table.specs.Shape.{max_depth};
ghost use Rattle.model.specs.Shape.{tree as shape};
ghost use Rattle.model.specs.Fault.{path_hash};
ghost use Rattle.symbol_hash.specs.SymbolHash.{symbol_hash};

use crate::{Kind, hash};
use parity_table::data_count;

// Whether a symbol has the hash that is committed for symbol m of layer j: in the root for layer 0, else in the symbol of the layer above
// that stands in b from byte up on.
#[tactic(auto, using(crate::proofs::CommittedLaws::slot_lt))]
pub fn fits(kind: Kind, j: usize, m: usize, symbol: &[u8], root: &[u8], b: &[u8], up: usize) -> bool
    requires { (j < max_depth) × (length symbol.now ≡ 256) × (j ≡ 0 → 32 * suc m ≤ length root.now)
        × (0 < j → (m < shape.n j) × (up + 256 ≤ length b.now)) }
    ensures { result ≡ same (symbol_hash kind j m symbol.now) (path_hash shape root.now j m (drop up b.now)) }
{
    let h = hash(kind, j, m, symbol);
    if j == 0 {
        return octets::equal_at(&h, root, 32 * m);
    }
    let slot = m / data_count(j - 1);
    octets::equal_at(&h, b, up + 32 * slot)
}
