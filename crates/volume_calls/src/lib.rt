// Writing a tree, and reading its block back: every numbered test in its order, then the core. No call has a `requires`;
// `write_with`, the core that the recoder shares, has one.
#![tactic(auto)]

mod reading;
mod writing;

pub use reading::read_block;
pub use writing::{write_tree, write_tree_by, write_with};
