// The hash of a symbol at its layer and number, by the kind of its volume, and whether it is the committed one.
#![tactic(auto)]

mod committed; // where the committed hash stands

ghost use Rattle.std.specs.Prelude.{◌≡◌, length};
ghost use Rattle.symbol_hash.specs.Kinds.{kind_number, Numbered};
ghost use Rattle.symbol_hash.specs.SymbolHash.{place_word, symbol_hash};

pub use committed::fits;
use parity_table::LAYER as KIND_01;

// How a volume's symbols are hashed.
#[derive(Clone, Copy, Debug, PartialEq, Eq)]
pub enum Kind {
    // SHA-256 of the symbol's bytes
    Plain = 1,
    // SHA-256 of a word with the symbol's layer and number, then its bytes
    Placed = 0,
}

impl From<Kind> for u32 {
    ghost from_gives = { λ kind number. number ≡ kind_number kind };

    fn from(kind: Kind) -> u32 {
        kind as u32
    }
}

// The number is of no kind.
#[derive(Clone, Copy, Debug, PartialEq, Eq)]
pub struct NoSuchKind;

impl TryFrom<u64> for Kind {
    type Error = NoSuchKind;

    ghost try_from_gives = { Numbered };

    fn try_from(number: u64) -> Result<Self, NoSuchKind> {
        match number {
            0 => Ok(Kind::Placed),
            1 => Ok(Kind::Plain),
            _ => Err(NoSuchKind),
        }
    }
}

// The way up to the root breaks: the first layer, going up, of a symbol with another hash than the committed one.
#[derive(Clone, Copy, Debug, PartialEq, Eq)]
pub struct Broken {
    pub layer: usize,
}

// The word of a place: kind 01, six bits of the layer, and twenty-four of the number.
fn place_word(layer: usize, number: usize) -> u32
    ensures { result ≡ place_word layer number }
{
    KIND_01 + (layer % 64 * 16777216 + number % 16777216) as u32
}

pub fn hash(kind: Kind, layer: usize, number: usize, symbol: &[u8]) -> [u8; 32]
    requires { length symbol.now ≡ 256 }
    ensures { result ≡ symbol_hash kind layer number symbol.now }
{
    let mut digest = [0u8; 32];
    match kind {
        Kind::Plain => digest = sha256::digest_of(symbol),
        Kind::Placed => sha256::digest_with_word(place_word(layer, number), symbol, &mut digest),
    }
    digest
}
