//! JSON values, forms and one of two types as arguments of handlers, and as responses.
#![tactic(auto)]

mod either;
mod either_argument;
mod either_extract_fut;
mod either_responder;
mod either_steps;
mod either_value;
mod form_argument;
mod form_future;
mod form_responder;
mod form_value;
mod json_argument;
mod json_future;
mod json_responder;
mod json_value;
mod kept_request;
mod type_laws;
mod typed_response;

pub use either::{Either, EitherExtractError, EitherExtractState};
pub use either_extract_fut::EitherExtractFut;
pub use form_future::FormExtractFut;
pub use form_value::Form;
pub use json_future::JsonExtractFut;
pub use json_value::Json;
pub use type_laws::{either_law, form_law, json_law};
