// Writing a fault proof into the output buffer of a repair, for an equation and buffers that are known to be right.
#![tactic(auto)]

mod proof; // the whole proof
mod way; // a symbol with its path

pub use proof::put_proof;
pub use way::put_symbol;
