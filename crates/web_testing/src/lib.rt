//! What tests of handlers need: requests, a worker for one of them, and the reply as it can be
//! compared.
#![tactic(auto)]

mod error;
mod reply;
mod request;
mod serving;

pub use error::TestError;
pub use reply::TestReply;
pub use request::TestRequest;
pub use serving::{MOST_POLLS, reply_law, serve_request, test_worker};
