// The sampler's core: it doesn't rehash.
ghost use Rattle.std.specs.Prelude.{◌≡◌, ◌*◌, length};
ghost use Rattle.model.specs.Shape.{tree as shape, places};
ghost use Rattle.model.specs.Symbols.{sym_at};
ghost use Rattle.model.specs.Sampling.{sample_size, sample_bytes};
ghost use Rattle.sampling.specs.Lent.{Inside, BaseSymbol};
ghost use Rattle.sampling.specs.Absent.{absent, first_absent};

use crate::symbols::sample_place;

// Whether symbol x of the sample of base symbol i isn't marked held.
fn is_absent(depth: usize, i: usize, marks: &[u8], x: usize) -> bool
    requires { BaseSymbol depth i × Inside depth x × (length marks.now ≡ places shape depth) }
    ensures { result ≡ absent depth i marks.now x }
{
    marks[sample_place(depth, i, x)] != 1
}

// The lowest index in the sample of base symbol i of a symbol that isn't marked held, if there is one.
pub fn first_absent(depth: usize, i: usize, marks: &[u8]) -> Option<usize>
    requires { BaseSymbol depth i × (length marks.now ≡ places shape depth) }
    ensures { result ≡ first_absent depth i marks.now }
{
    (0..2 * depth - 1).find(|x| is_absent(depth, i, marks, *x))
}

// Copies the symbols of the sample of base symbol i, one after the other.
pub fn take(depth: usize, i: usize, tree: &[u8], sample: &mut [u8])
    requires { BaseSymbol depth i × (length tree.now ≡ 256 * places shape depth)
        × (length sample.old ≡ 256 * sample_size depth) }
    ensures { sample.new ≡ sample_bytes shape (sym_at shape tree.now) depth i }
{
    for x in 0..2 * depth - 1 {
        let symbol = octets::symbol_at(tree, sample_place(depth, i, x));
        octets::copy_at(symbol, sample, 256 * x);
    }
}
