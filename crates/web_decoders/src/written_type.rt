//! Content types that are compared as they are written, before any is read.
ghost use Rattle.std.specs.Prelude.{◌≡◌};
ghost use Rattle.web_request.specs.MessageFields.{first_content_type};
ghost use Rattle.web_decoders.specs.WrittenTypes.{is_written};

use http_header::{CONTENT_TYPE, HeaderMap, HeaderValue};
use web_texts::bytes_equal;

/// Whether the first Content-Type is this text, byte by byte. Another text may name the same type.
pub fn is_written(headers: &HeaderMap<HeaderValue>, text: &[u8]) -> bool
    ensures { result ≡ is_written text.now (first_content_type headers.now) }
{
    match headers.get(CONTENT_TYPE) {
        Some(value) => bytes_equal(value.as_bytes(), text),
        None => false,
    }
}
