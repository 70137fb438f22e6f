// The cores of the sampler and of the sample checker, for a depth, a base symbol number and lengths
// that are known to be right.
#![tactic(auto)]

mod checker;
mod sampler;
pub mod symbols;

pub use checker::check;
pub use sampler::{first_absent, take};
