//! How a proxy that compresses chooses a coding.
use http_header::{HeaderMap, HeaderValue};
use std::alloc::Global;
use web_headers::{AcceptEncoding, Encoding, Header};
use web_negotiate::prelude::*;
use web_texts::{Fail, ParseError};

/// The coding in which a proxy that can make two of them sends a body to the client that asks with
/// these headers. `None` is a case for status 406: the client accepts neither of them, and not the
/// body as it is.
pub fn coding_to_send(
    alloc: Global,
    asked: &HeaderMap<HeaderValue>,
) -> Result<Option<Encoding>, Fail<ParseError>> {
    let accepted = AcceptEncoding::parse(alloc, asked)?;
    let made = [Encoding::gzip(), Encoding::brotli(), Encoding::identity()];
    Ok(accepted.negotiate(alloc, &made)?)
}
