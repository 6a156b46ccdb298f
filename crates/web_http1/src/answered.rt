//! What one answer of a connection came to.

use crate::ended::Ended;

/// What `Connection::answer_next` came to.
#[derive(Clone, Copy, Debug, PartialEq, Eq)]
pub enum Answered {
    /// The reply to one message was written, and the connection is open after it: bytes that are
    /// left may hold another one.
    Replied,
    /// No message is whole: more bytes have to come. Nothing was written.
    Waits,
    /// The connection ended: by the reply that was written, by a refusal, or before this call.
    Ended(Ended),
}
