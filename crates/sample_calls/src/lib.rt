// Taking a sample, and checking one: every numbered test in its order, then the core. Neither has a `requires`.
#![tactic(auto)]

mod checking;
mod taking;

pub use checking::check;
pub use taking::take;
