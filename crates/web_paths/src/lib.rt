//! Paths below a root, made of a request target alone.
#![tactic(auto)]

mod below;
mod names;

pub use below::Below;
pub use names::HiddenNames;
