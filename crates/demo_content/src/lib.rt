//! What the demo application stores, the documents of `/doc` and the variants of `/variant`, and
//! what its handler responds with.
#![tactic(auto)]

mod answer;
mod answering;
mod documents;
mod media_types;
mod parts_text;
mod texts;
mod variants;

pub use answer::{Answer, DemoOutput, cookies_answer, document_answer, raw_answer, variant_answer};
pub use answering::Answering;
pub use documents::DemoDocuments;
pub use texts::PlainText;
pub use variants::DemoVariants;
