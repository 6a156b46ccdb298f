//! What a server adds to its replies.

use bytes::Bytes;
use http_header::HeaderValue;
use web_reply::HttpResponse;

/// What a server adds to the replies that `Connection::begin_next` writes. By default nothing.
#[derive(Default, Drop)]
pub struct ReplySettings {
    /// The connection ends after the reply, which says `connection: close` (RFC 7230, section 6.6).
    pub last: bool,
    /// A reply to HEAD states the length that the reply to GET would have, where it is known
    /// (RFC 7230, section 3.3.2).
    pub length_at_head: bool,
    /// The value of Date in a reply that has no such field (RFC 7231, section 7.1.1.2).
    pub date: Option<HeaderValue>,
    /// Replies to messages that are refused: the first that has the status of the refusal is
    /// written in place of the empty one, and closes as that does.
    pub refusals: Option<Vec<HttpResponse<Bytes>>>,
}
