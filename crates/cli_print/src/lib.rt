//! The texts that the command writes: the outcome of each exchange and what the pool holds, and the
//! summary of a load.
#![tactic(auto)]

mod body;
mod header_lines;
mod hexadecimal;
mod lines;
mod marks;
mod outcomes;
mod response;
mod summary;

pub use outcomes::printed;
pub use summary::summarized;
