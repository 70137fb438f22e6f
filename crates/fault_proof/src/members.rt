// The members in proof order: the given ones, each with its path, then the withheld one's path.
ghost use Rattle.std.specs.Prelude.{◌≡◌, suc, ◌+◌, ◌*◌, ◌≤◌, length, drop};
ghost use Rattle.model.specs.Shape.{tree as shape};
ghost use Rattle.model.specs.Symbols.{others};
ghost use Rattle.model.specs.Climb.{all_lead, first_break};
ghost use Rattle.model.specs.Fault.{ways_check};
ghost use Rattle.symbol_hash.specs.SymbolHash.{symbol_hash};
ghost use Rattle.symbol_hash.specs.Ways.{climb_of};
ghost use Rattle.fault_proof.specs.Lent.{Members};
ghost use Rattle.fault_proof.specs.Verdicts.{ways_of};

use crate::{Break, way};
use symbol_hash::{Broken, Kind};

// What the check of the way at a position found, with that position.
fn at_position(way: Result<(), Broken>, position: usize) -> Result<(), Break>
    ensures { ways_of result ≡ first_break position (climb_of way) all_lead }
{
    way.map_err(|broken| Break {
        layer: broken.layer,
        position,
    })
}

// Checks the members of layer j other than x, which stand with their paths in b from byte at on, then the path of x, which follows them.
pub fn check(
    kind: Kind,
    j: usize,
    members: &[u32],
    x: usize,
    root: &[u8],
    b: &[u8],
    at: usize,
) -> Result<(), Break>
    requires { Members j members.now root.now
        × (at + 256 * (length (others x members.now) * suc j) + 256 * j ≤ length b.now) }
    ensures { ways_of result ≡ ways_check shape (symbol_hash kind) root.now j x 0 (others x members.now) (drop at b.now) }
{
    let mut from = at;
    let mut position: usize = 0;
    for &y in members {
        let y = y as usize;
        if y == x {
            continue;
        }
        at_position(way::check(kind, j, y, root, b, from), position)?;
        from += 256 * (j + 1);
        position += 1;
    }
    at_position(way::check_path(kind, j, x, root, b, from), position)
}
