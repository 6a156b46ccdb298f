//! Inputs and outputs that count their failures, and reading and writing whole texts over them.
#![tactic(auto)]

mod failing;
mod input;
mod memory_input;
mod memory_output;
mod output;
mod reading;
mod standard;
mod writing;

pub use input::{Input, ReadAnswer};
pub use memory_input::{MemInput, PlainInput};
pub use memory_output::{MemOutput, PlainOutput};
pub use output::{Output, WriteAnswer};
pub use reading::{ReadWhole, SCRIPT_LIMIT, read_whole};
pub use standard::{StdInput, StdOutput};
pub use writing::write_whole;
