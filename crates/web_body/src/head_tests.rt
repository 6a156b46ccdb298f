//! What the head of a request says of its body.
ghost use Rattle.std.specs.Prelude.{◌≡◌, Some};
ghost use Rattle.http_header.specs.HeaderMap.{get};
ghost use Rattle.web_body.specs.HeadTests.{content_encoding, content_length};
ghost use Rattle.web_body.specs.HeadTests.{declared_of, head_refusal, is_coded_of};

use crate::message_body::PayloadError;
use http_header::{CONTENT_ENCODING, CONTENT_LENGTH, HeaderMap, HeaderValue};
use web_texts::{number_of, trim_bytes};

/// The length of a body by the first Content-Length (RFC 9110, section 8.6) of a head.
#[derive(Clone, Copy, Debug, PartialEq, Eq)]
pub enum Declared {
    /// There is no such header.
    Nothing,
    /// Its value is not digits alone, or is greater than a `usize` can be.
    Unreadable,
    /// The number of bytes.
    Length(usize),
}

/// The declared length. Blanks around the digits make it unreadable, and so does a sign.
#[tactic(auto, using(crate::proofs::EmptyHeadersLemmas::nothing_under))]
pub fn declared_length(headers: &HeaderMap<HeaderValue>) -> Declared
    ensures { result ≡ declared_of (get headers.now content_length) }
{
    // No name is made to look up where there is none, as in most small requests.
    if headers.is_empty() {
        return Declared::Nothing;
    }
    match headers.get(CONTENT_LENGTH) {
        Some(value) => length_of(value),
        None => Declared::Nothing,
    }
}

fn length_of(value: &HeaderValue) -> Declared
    ensures { result ≡ declared_of (Some value.now) }
{
    match number_of(value.as_bytes(), usize::MAX as u64) {
        Some(length) => Declared::Length(length as usize),
        None => Declared::Unreadable,
    }
}

/// Whether the first Content-Encoding (RFC 9110, section 8.4) names another coding than `identity`.
#[tactic(auto, using(crate::proofs::EmptyHeadersLemmas::nothing_under))]
pub fn is_coded(headers: &HeaderMap<HeaderValue>) -> bool
    ensures { result ≡ is_coded_of (get headers.now content_encoding) }
{
    if headers.is_empty() {
        return false;
    }
    match headers.get(CONTENT_ENCODING) {
        Some(value) => names_coding(value),
        None => false,
    }
}

fn names_coding(value: &HeaderValue) -> bool
    ensures { result ≡ is_coded_of (Some value.now) }
{
    !trim_bytes(value.as_bytes()).eq_ignore_ascii_case(b"identity")
}

/// The refusal of a body by its head, before any of it is read.
pub fn head_refusal(declared: Declared, is_coded: bool, limit: usize) -> Option<PayloadError>
    ensures { result ≡ head_refusal declared is_coded limit }
{
    match declared {
        Declared::Unreadable => return Some(PayloadError::UnknownLength),
        Declared::Length(length) if limit < length => return Some(PayloadError::Overflow),
        Declared::Length(_) | Declared::Nothing => {}
    }
    if is_coded {
        Some(PayloadError::UnsupportedEncoding)
    } else {
        None
    }
}
