// Checking a fault proof, and repairing a tree: every numbered test in its order, then the core. Neither has a `requires`.
#![tactic(auto)]

mod checking;
mod numbering; // how a repair ended, as numbers
mod repairing;

pub use checking::check;
pub use numbering::{ending_of, misfilled};
use repair::Report;
pub use repairing::repair_tree;

// How a repair that wasn't stopped came out.
#[derive(Clone, Copy, Debug, PartialEq, Eq)]
pub enum Outcome {
    // symbols stored, and the end
    Ended(Report),
    // whole, but what fills up the block is not zero: symbols stored
    Misfilled(usize),
}

// The number of an end, the symbols stored, and what goes with the end: a proof's length, a layer, layer and number of twins, or 0.
#[derive(Clone, Copy, Debug, PartialEq, Eq)]
pub struct Ending {
    pub end: usize,
    pub stored: usize,
    pub value: usize,
}
