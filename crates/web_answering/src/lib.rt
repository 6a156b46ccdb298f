//! One exchange as a future, with a worker and a service of its own.
#![tactic(auto)]

mod future;
mod laws;

pub use future::Answering;
pub use laws::one_reply_law;
