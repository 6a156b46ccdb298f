//! What one answer of a connection came to, whose body may be due.

use crate::answered::Answered;
use crate::connection::Connection;
use crate::due_body::DueBody;

/// What `Connection::begin_next` came to.
#[derive(Drop)]
pub enum Begun<S> {
    /// All that is due was written: one reply, that of a refusal, or nothing.
    Answered(Connection, Answered),
    /// What stands before the body of a reply was written. The body is due.
    Due(DueBody<S>),
}
