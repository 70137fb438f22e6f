// The sample checker's core: each symbol is hashed once, and its hash compared where the root or the
// next data symbol up has it.
ghost use Rattle.std.specs.Prelude.{◌≡◌, ◌*◌, length};
ghost use Rattle.symbol_hash.specs.SymbolHash.{symbol_hash};
ghost use Rattle.model.specs.Shape.{tree as shape};
ghost use Rattle.model.specs.Sampling.{sample_size};
ghost use Rattle.model.specs.SampleCheck.{sample_fits, sample_check};
ghost use Rattle.sampling.specs.Lent.{Inside, BaseSymbol};
ghost use Rattle.symbol_hash.specs.Ways.{climb_of};

use crate::symbols::{layer_of, number_of};
use symbol_hash::{Broken, Kind};

// Whether symbol x of the sample of base symbol i has the committed hash: in the root, or in the sample's data symbol of the layer above.
fn symbol_fits(kind: Kind, depth: usize, i: usize, root: &[u8], sample: &[u8], x: usize) -> bool
    requires { BaseSymbol depth i × Inside depth x × (length root.now ≡ 512)
        × (length sample.now ≡ 256 * sample_size depth) }
    ensures { result ≡ sample_fits shape (symbol_hash kind) root.now depth i sample.now x }
{
    let j = layer_of(depth, x);
    let m = number_of(depth, i, x);
    let up = 256 * (2 * (depth - j) - 1);
    symbol_hash::fits(kind, j, m, octets::symbol_at(sample, x), root, sample, up)
}

// Checks the symbols of the sample of base symbol i, from the base symbol up.
pub fn check(kind: Kind, depth: usize, i: usize, root: &[u8], sample: &[u8]) -> Result<(), Broken>
    requires { BaseSymbol depth i × (length root.now ≡ 512)
        × (length sample.now ≡ 256 * sample_size depth) }
    ensures { climb_of result ≡ sample_check shape (symbol_hash kind) root.now depth i sample.now }
{
    for x in 0..2 * depth - 1 {
        if !symbol_fits(kind, depth, i, root, sample, x) {
            return Err(Broken {
                layer: layer_of(depth, x),
            });
        }
    }
    Ok(())
}
