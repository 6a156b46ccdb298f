//! The head of a response.
ghost use Rattle.std.specs.Prelude.{◌≡◌, IfOk};

use bytes::ByteStr;
use http::{StatusCode, Version};
use http_header::{HeaderMap, HeaderValue};
use std::alloc::Global;
use std::marker::Model;
use web_texts::{Duplicate, NoMemory};

/// What happens to the connection after the response (RFC 9110, section 7.6.1).
#[derive(Clone, Copy, Debug, PartialEq, Eq)]
pub enum ConnectionType {
    /// It is kept open for further requests.
    KeepAlive,
    /// It is closed.
    Close,
    /// It is upgraded to another protocol (RFC 9110, section 7.8).
    Upgrade,
}

/// The reason phrase of a status line (RFC 9112, section 4), where it is not the status's own.
///
/// Contracts see it as its bytes.
#[derive(Debug, Drop)]
pub struct Reason {
    text: ByteStr,
}

impl Model for Reason {
    ghost use Rattle.std.specs.Prelude.{List, ℕ};

    ghost Value = { List ℕ };

    ghost view = { λ r. r.text };
}

impl Reason {
    /// The reason phrase of this text, uncopied.
    pub fn of(text: &'static str) -> Reason
        ensures { result ≡ text.now }
    {
        Reason {
            text: ByteStr::from_static(text),
        }
    }

    pub fn as_str(&self) -> &str
        ensures { result.now ≡ self.now }
    {
        self.text.as_str()
    }
}

impl Duplicate for Reason {
    fn duplicate(&self, _alloc: Global) -> Result<Reason, NoMemory> {
        Ok(Reason {
            text: self.text.clone()?,
        })
    }
}

/// The status line and the headers of a response, with what a server needs to send them.
#[derive(Drop)]
pub struct ResponseHead {
    pub version: Version,
    pub status: StatusCode,
    /// What happens to the connection. `None` leaves it to the version.
    pub connection: Option<ConnectionType>,
    /// Whether the body must not be sent in chunks (RFC 9112, section 7.1), since its length is
    /// known otherwise.
    pub no_chunking: bool,
    pub headers: HeaderMap<HeaderValue>,
    /// The reason phrase, where it is not the status's own.
    pub reason: Option<Reason>,
}

/// A copy of the headers.
pub(crate) fn copy_headers(
    headers: &HeaderMap<HeaderValue>,
) -> Result<HeaderMap<HeaderValue>, NoMemory>
    ensures { IfOk result (λ copy. copy ≡ headers.now) }
{
    Ok(headers.clone()?)
}

impl Duplicate for ResponseHead {
    fn duplicate(&self, alloc: Global) -> Result<ResponseHead, NoMemory> {
        let headers = copy_headers(&self.headers)?;
        Ok(ResponseHead {
            version: self.version,
            status: self.status,
            connection: self.connection,
            no_chunking: self.no_chunking,
            headers,
            reason: self.reason.duplicate(alloc)?,
        })
    }
}
