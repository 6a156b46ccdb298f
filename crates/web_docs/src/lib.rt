//! Documents that are served by conditional requests and by ranges.
#![tactic(auto)]

mod answer;
mod conditions;
mod content;
mod described;
mod described_answer;
mod document;
mod header_maps;
mod laws;
mod replies;
mod reply_headers;
mod sends;
mod store;
mod stored;
mod verdict;

pub use answer::answer_document;
pub use described::Described;
pub use described_answer::answer_described;
pub use document::{Document, StoreFault};
pub use laws::{document_law, part_law};
pub use sends::Sends;
pub use store::Store;
