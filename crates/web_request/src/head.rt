//! The head of a request.
ghost use Rattle.std.specs.Prelude.{◌≡◌};
ghost use Rattle.web_request.specs.Head.{head_view};

use crate::peers::address::SocketAddr;
use http::{Method, Version};
use http_header::{HeaderMap, HeaderValue};
use http_uri::Uri;
use std::alloc::AllocError;

/// The request line and the header section of a request (RFC 9112, sections 3 and 5), and the
/// address of its peer.
#[derive(Drop)]
pub struct RequestHead {
    /// The request target (RFC 9112, section 3.2).
    pub uri: Uri,
    /// The method (RFC 9110, section 9).
    pub method: Method,
    /// The HTTP version.
    pub version: Version,
    /// The header fields.
    pub headers: HeaderMap<HeaderValue>,
    /// The address that the request came from, if it is known.
    pub peer_addr: Option<SocketAddr>,
}

impl Clone for RequestHead {
    ghost is_clone = { λ head copy. head_view copy ≡ head_view head };

    fn clone(&self) -> Result<RequestHead, AllocError> {
        let uri = self.uri.clone()?;
        let method = self.method.clone()?;
        let headers = self.headers.clone()?;
        Ok(RequestHead {
            uri,
            method,
            version: self.version,
            headers,
            peer_addr: self.peer_addr,
        })
    }
}
