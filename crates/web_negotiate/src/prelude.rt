//! The traits whose calls choose: `use web_negotiate::prelude::*`.

pub use crate::byte_ranges::SatisfiableRange;
pub use crate::encodings::AcceptEncodingChoices;
pub use crate::languages::AcceptLanguageChoices;
pub use crate::media_types::AcceptChoices;
