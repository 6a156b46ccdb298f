//! A connection of HTTP/1.1 over any source of bytes.
#![tactic(auto)]

mod answered;
mod answering;
mod beginning;
mod begun;
mod closing;
mod connection;
mod content;
mod due_body;
mod ended;
mod exchange;
mod expecting;
mod feed_error;
mod laws;
mod pieces;
mod polled;
mod refusing;
mod reply;
mod serving;
mod settings;
mod text;

pub use answered::Answered;
pub use begun::Begun;
pub use connection::Connection;
pub use due_body::{BodyFraming, BodyStage, BodyWritten, DueBody};
pub use ended::Ended;
pub use feed_error::FeedError;
pub use laws::answers_law;
pub use pieces::{begun_calls_law, calls_law, pieces_law};
pub use serving::{serve_connection, serve_connection_with};
pub use settings::ReplySettings;
