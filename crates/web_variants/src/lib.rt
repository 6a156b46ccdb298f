//! Stored variants of one page, and the choice among them by what a client accepts.
#![tactic(auto)]

mod accepted;
mod best_quality;
mod choice;
mod coding_quality;
mod language_quality;
mod media_quality;
mod page;
mod page_fault;
mod page_reply;
mod printed_headers;
mod stored_variants;
mod variant_reply;

pub use choice::choose;
pub use page::Page;
pub use page_fault::NoSuchVariant;
pub use page_reply::answer_page;
pub use stored_variants::{Variant, VariantFault, Variants};
pub use variant_reply::answer_variant;
