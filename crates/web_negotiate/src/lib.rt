//! Choices among what a client accepts, and the positions that a byte range selects.
#![tactic(auto)]

mod byte_ranges;
mod encodings;
mod greatest;
mod languages;
mod laws;
mod media_types;
pub mod prelude;
mod rankings;

pub use greatest::place_of_greatest;
pub use laws::ranking_law;
pub use rankings::Ranking;
