// The symbols of a sample: the layer, the number in the layer and the place in the tree of each.
ghost use Rattle.std.specs.Prelude.{◌≡◌, ◌<◌};
ghost use Rattle.parity_table.specs.Shape.{max_depth};
ghost use Rattle.model.specs.Shape.{tree as shape, place};
ghost use Rattle.model.specs.Sampling.{sample_layer, sample_number};
ghost use Rattle.sampling.specs.Lent.{Inside, BaseSymbol};

use parity_table::data_count;

// The layer of symbol x.
pub fn layer_of(depth: usize, x: usize) -> usize
    requires { Inside depth x }
    ensures { result ≡ sample_layer depth x }
{
    depth - 1 - (x + 1) / 2
}

// The number, in its layer, of symbol x of a sample of base symbol i: the base symbol comes first,
// then a data symbol and a parity symbol of each layer upward.
pub fn number_of(depth: usize, i: usize, x: usize) -> usize
    requires { Inside depth x }
    ensures { result ≡ sample_number shape depth i x }
{
    if x == 0 {
        return i;
    }
    let k = data_count(layer_of(depth, x));
    if x % 2 == 1 {
        return i % k;
    }
    k + i % (3 * k)
}

// The place of a symbol. The layers above layer j have 16·(2^j−1) symbols, with k = 4·2^j of layer j.
pub fn place_of(layer: usize, number: usize) -> usize
    requires { (layer < max_depth) × (number < shape.n layer) }
    ensures { result ≡ place shape layer number }
{
    4 * (data_count(layer) - 4) + number
}

// The place of symbol x of a sample of base symbol i.
pub fn sample_place(depth: usize, i: usize, x: usize) -> usize
    requires { BaseSymbol depth i × Inside depth x }
    ensures { result ≡ place shape (sample_layer depth x) (sample_number shape depth i x) }
{
    place_of(layer_of(depth, x), number_of(depth, i, x))
}
