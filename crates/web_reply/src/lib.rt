//! Responses, the errors that become responses, and the types that a handler can return.
#![tactic(auto)]

mod body;
mod byte_str;
mod cookie_setting;
mod cow_str;
mod errors;
mod head;
pub mod header_setting;
mod owned_bodies;
mod responders;
mod response;
mod response_cookies;
mod typed;

pub use body::{BodySize, BoxBody, EitherBody, MessageBody, WholeBody};
pub use byte_str::ByteStr;
pub use cookie_setting::cookie_header;
pub use cow_str::CowStr;
pub use errors::cause::{Cause, HttpError, IoKind};
pub use errors::error::{Error, ResponseError, Result};
pub use errors::internal_error::InternalError;
pub use errors::mapped_error::{MappedError, ResponseMapper};
pub use errors::several::{Causes, Member};
pub use head::{ConnectionType, Reason, ResponseHead};
pub use responders::done::Done;
pub use responders::responder::Responder;
pub use response::HttpResponse;
pub use response_cookies::{CookieIter, cookie_items_law};
pub use web_texts::{NoMemory, Text};
