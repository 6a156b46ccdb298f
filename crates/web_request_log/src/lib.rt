//! The text of a request for logs, without its secrets.
#![tactic(auto)]

mod header_lines;
mod header_names;
mod header_order;
mod log_entry;
mod version_name;

pub use header_names::sorted_names;
pub use header_order::header_order_law;
pub use log_entry::{LogEntry, describe};
