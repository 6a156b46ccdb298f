//! Responses that are built step by step, redirects and pages, and responders whose response is
//! changed.
#![tactic(auto)]

mod builder;
mod customize_responder;
mod html;
mod one_header;
pub mod prelude;
mod redirect;

pub use builder::HttpResponseBuilder;
pub use customize_responder::{CustomizeResponder, layering_law};
pub use html::Html;
pub use redirect::Redirect;
