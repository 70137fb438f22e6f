// Steps (a) and (b) of repair, for one layer: a sweep over its symbols, and peeling by its equations. The layer is any that hangs under a
// tree's layers, or under the root; its equations are those that stand one after the other in an index of words.
#![tactic(auto)]

mod peel; // (b): turn after turn
mod search; // the next equation to take
mod sweep; // (a): bad copies become absent

pub use peel::peel_layer;
pub use search::prepare;
pub use sweep::sweep_layer;

// What ends the peeling of a layer while equations can be taken.
#[derive(Clone, Copy, Debug, PartialEq, Eq)]
pub enum Refutation {
    // a fault proof was written
    Fault {
        equation: usize,
        withheld: usize,
        size: usize,
    },
    // two different symbols of this number, of equal hash, were written
    Twins(usize),
}

// How the peeling of a layer ended (Ok: no equation can be taken any more), and the symbols stored so far.
#[derive(Clone, Copy, Debug, PartialEq, Eq)]
pub struct Run {
    pub stored: usize,
    pub outcome: Result<(), Refutation>,
}
