// The fault-proof checker's core, for a table and a root that are known to be right: tests 6, 2, 7, 8.
#![tactic(auto)]

mod checker; // the whole check
mod given; // the given members' exclusive-or
mod head; // the withheld member, which the head names
mod members; // all members in proof order, with their paths
mod way; // a symbol and its path

ghost use Rattle.std.specs.Prelude.{◌≡◌};
ghost use Rattle.fault_proof.specs.declared.Refusal.TheVariants.{Broken};

pub use checker::{check, judge};

// Why a proof is turned down.
#[derive(Clone, Copy, Debug, PartialEq, Eq)]
pub enum Refusal {
    // wrong kind, layer or equation, or no member
    WrongHead,
    // the length isn't the one that the head demands
    WrongLength,
    // a hash doesn't lead to the root: the first such layer on the way up from the first such member, and that member's position
    Broken { layer: usize, position: usize },
    // the withheld hash fits
    NoFault,
}

// The first of a proof's ways that doesn't lead to the root: the layer where it breaks, and its position, the withheld member's being the last.
#[derive(Clone, Copy, Debug, PartialEq, Eq)]
pub struct Break {
    pub layer: usize,
    pub position: usize,
}

impl From<Break> for Refusal {
    ghost from_gives = { λ b refusal. refusal ≡ Broken b.layer b.position };

    fn from(b: Break) -> Refusal {
        Refusal::Broken {
            layer: b.layer,
            position: b.position,
        }
    }
}
