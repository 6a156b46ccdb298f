//! Arguments of the demo's own, and the choice that the first segment of a path makes among all.
#![tactic(auto)]

mod all_lines;
mod choice;
mod delayed;
mod late;
mod params;
mod request_arguments;
mod wait;

pub use all_lines::{AllLines, AllLinesFuture};
pub use choice::{Choice, DecodedChoice, HeadChoice, ReadChoice, RequestChoice, choice_of};
pub use delayed::Delayed;
pub use late::{Late, LateFuture};
pub use request_arguments::{CookieArguments, DataArguments, RawBody, RequestArguments};
pub use wait::Wait;
