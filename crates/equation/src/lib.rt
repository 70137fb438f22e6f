// One turn of step (b) of repair: an equation of a layer, with at most one absent member, is taken.
#![tactic(auto)]

mod absent; // its absent members
mod cases; // the cases of a turn
mod committed; // the committed hash of a symbol, where the tree buffer has it, and gaps

pub use absent::count_absent;
pub use cases::{holds, take};
pub use committed::is_gap;

// What a turn at an equation did: no Option or Result, since two of the four end the peeling and two go on.
#[derive(Clone, Copy, Debug, PartialEq, Eq)]
pub enum Turn {
    // it holds
    Used,
    // its one absent member, of this number, was formed and stored
    Stored(usize),
    // a fault proof was written
    Fault { withheld: usize, size: usize },
    // the two symbols of this number were written
    Twins(usize),
}
