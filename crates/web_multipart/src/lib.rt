//! Forms that are sent as `multipart/form-data`, as arguments of handlers.
#![tactic(auto)]

mod law;
mod multipart;
mod multipart_future;

pub use law::multipart_law;
pub use multipart::{MOST_PARTS, Multipart};
pub use multipart_future::MultipartExtractFut;
pub use web_multipart_stream::{MultipartError, MultipartStream, Part};
