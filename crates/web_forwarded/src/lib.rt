//! Where a request came from, by its header fields: the host that it was sent to, its scheme, and
//! the client behind proxies (RFC 7239).
#![tactic(auto)]

mod addresses;
mod fields;
mod forwarded_pairs;
mod origin;

pub use origin::{Origin, read_origin};
