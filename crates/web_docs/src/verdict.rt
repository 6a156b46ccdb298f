//! What becomes of a request for a document.
ghost use Rattle.std.specs.Prelude.{◌≡◌, ◌||◌};
ghost use Rattle.web_docs.specs.Verdicts.{fails as fails_lem, is_get as is_get_lem};
ghost use Rattle.web_docs.specs.Verdicts.{is_head as is_head_lem};
ghost use Rattle.web_docs.specs.Verdicts.{part_or_all, verdict_of, wanted_range};

use crate::conditions::{match_condition, none_match_condition, range_condition};
use http::Method;
use http_header::{HeaderMap, HeaderValue};
use httpdate::HttpDate;
use web_entities::{ByteRangeSpec, EntityTag, Range};

/// What becomes of a request for a document.
#[derive(Clone, Copy, Debug, PartialEq, Eq)]
pub enum Verdict {
    /// The method is neither GET nor HEAD.
    MethodNotAllowed,
    /// The condition of If-Match or of If-Unmodified-Since does not hold.
    PreconditionFailed,
    /// The condition of If-None-Match or of If-Modified-Since does not hold: the client has this
    /// version.
    NotModified,
    /// The bytes of this range are sent.
    Part(ByteRangeSpec),
    /// The whole document is sent.
    All,
}

fn is_get(method: &Method) -> bool
    ensures { result ≡ is_get_lem method.now }
{
    method.as_str() == "GET"
}

/// Whether the method is HEAD.
pub fn is_head(method: &Method) -> bool
    ensures { result ≡ is_head_lem method.now }
{
    method.as_str() == "HEAD"
}

fn is_get_or_head(method: &Method) -> bool
    ensures { result ≡ (is_get_lem method.now || is_head_lem method.now) }
{
    is_get(method) || is_head(method)
}

/// Whether the request has the condition, and it does not hold.
fn fails(condition: Option<bool>) -> bool
    ensures { result ≡ fails_lem condition }
{
    match condition {
        Some(holds) => !holds,
        None => false,
    }
}

/// The verdict on a request of this method and these headers for a document of this tag, which was
/// last changed at this date, where that is known.
pub fn read_verdict(
    method: &Method,
    headers: &HeaderMap<HeaderValue>,
    tag: &EntityTag,
    modified: Option<HttpDate>,
) -> Verdict
    ensures { result ≡ verdict_of method.now headers.now tag.now modified }
{
    if !is_get_or_head(method) {
        return Verdict::MethodNotAllowed;
    }
    if headers.is_empty() {
        return Verdict::All;
    }
    if fails(match_condition(tag, modified, headers)) {
        return Verdict::PreconditionFailed;
    }
    if fails(none_match_condition(tag, modified, headers)) {
        return Verdict::NotModified;
    }
    read_part(method, headers, tag, modified)
}

/// A part, or all.
fn read_part(
    method: &Method,
    headers: &HeaderMap<HeaderValue>,
    tag: &EntityTag,
    modified: Option<HttpDate>,
) -> Verdict
    ensures { result ≡ part_or_all (wanted_range method.now headers.now tag.now modified) }
{
    if !is_get(method) {
        return Verdict::All;
    }
    match Range::only(headers) {
        Some(spec) if range_condition(tag, modified, headers) => Verdict::Part(spec),
        _ => Verdict::All,
    }
}
