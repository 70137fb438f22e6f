// A volume coded anew as one of the other kind: every numbered test in its order, then the core. The call has no `requires`.
#![tactic(auto)]

mod look; // whether a repair would call a tree whole without storing anything
mod recoding;

pub use recoding::recode;
