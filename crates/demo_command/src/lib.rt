//! The command over the demo's arguments, with any handler of them.
#![tactic(auto)]

mod command;

pub use command::run;
