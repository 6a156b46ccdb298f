//! Three routes with three lists of extractors over one connection, and the exact reply to each
//! request.
#![tactic(auto)]

mod handlers;
mod laws;
mod serving;
mod site;

pub use handlers::{ListItems, NoItem, NoteItem, ShowItem};
pub use serving::{items_answered_law, serve_items};
pub use site::{ItemSite, item_site};
