//! One connection of HTTP/1.1 over a reader and a writer, for programs that another program starts
//! for each connection, with it as standard input and output.
#![tactic(auto)]

mod additions;
mod fault;
mod sending;
mod serving;
mod settings;

pub use fault::ServeFault;
pub use serving::serve;
pub use settings::{DateHeader, ServeSettings};
