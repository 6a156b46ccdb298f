//! Further arguments of handlers, which stand above what they read.
#![tactic(auto)]

mod header_argument;
mod laws;
mod path_argument;
mod path_parameters;
mod query_argument;

pub use header_argument::Header;
pub use laws::{date_header_law, header_law, path_law, query_law};
pub use path_argument::Path;
pub use query_argument::Query;
