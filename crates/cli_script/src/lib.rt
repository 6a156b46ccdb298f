//! Scripts: exchanges with their bodies, and a plan of polls, line by line.
#![tactic(auto)]

mod entries;
mod exchange;
mod header;
mod law;
mod layer;
mod line;
mod number;
mod param;
mod part;
mod peer;
mod reader;
mod reason;
mod script;
mod segment;
mod sink;

pub use exchange::ScriptedExchange;
pub use law::{first_fault_law, target_law};
pub use layer::LayerSettings;
pub use reason::LineFault;
pub use script::{InvalidScript, Script, read_script, read_script_into};
pub use segment::first_segment;
pub use sink::ExchangeSink;
