//! The conditions of a request, as the document meets them.
ghost use Rattle.std.specs.Prelude.{◌≡◌, codes};
ghost use Rattle.web_texts.specs.HeaderTexts.{header_text};
ghost use Rattle.web_docs.specs.Conditions.{if_modified_since as if_modified_since_lem};
ghost use Rattle.web_docs.specs.Conditions.{if_unmodified_since as if_unmodified_since_lem};
ghost use Rattle.web_docs.specs.Conditions.{is_last_change as is_last_change_lem};
ghost use Rattle.web_docs.specs.Conditions.{match_condition as match_condition_lem};
ghost use Rattle.web_docs.specs.Conditions.{none_match_condition as none_match_condition_lem};
ghost use Rattle.web_docs.specs.Conditions.{range_condition as range_condition_lem};
ghost use Rattle.web_docs.specs.Conditions.{seconds_of, text_names_version, values};

use http_header::{
    HeaderMap, HeaderName, HeaderValue, IF_MODIFIED_SINCE, IF_RANGE, IF_UNMODIFIED_SINCE,
};
use httpdate::HttpDate;
use web_entities::{Comparison, EntityTag, IfMatch, IfNoneMatch};
use web_headers::from_one_date;
use web_texts::{Fail, header_text};

/// The date of a header, in seconds since 1970, where it is there and can be read.
fn read_seconds(headers: &HeaderMap<HeaderValue>, name: &HeaderName) -> Option<u64>
    ensures { result ≡ seconds_of (values name.now headers.now) }
{
    match from_one_date(headers, name) {
        Ok(date) => Some(date.unix_secs()),
        Err(Fail::Of(_)) => None,
        Err(Fail::NoMemory) => unreachable!(),
    }
}

fn if_unmodified_since(modified: Option<HttpDate>, headers: &HeaderMap<HeaderValue>) -> Option<bool>
    ensures { result ≡ if_unmodified_since_lem modified headers.now }
{
    let Some(modified) = modified else {
        return None;
    };
    match read_seconds(headers, &IF_UNMODIFIED_SINCE) {
        Some(date) => Some(modified.unix_secs() <= date),
        None => None,
    }
}

fn if_modified_since(modified: Option<HttpDate>, headers: &HeaderMap<HeaderValue>) -> Option<bool>
    ensures { result ≡ if_modified_since_lem modified headers.now }
{
    let Some(modified) = modified else {
        return None;
    };
    match read_seconds(headers, &IF_MODIFIED_SINCE) {
        Some(date) => Some(date < modified.unix_secs()),
        None => None,
    }
}

/// Whether the condition of If-Match holds, or else that of If-Unmodified-Since. `None` where the
/// request has neither.
pub fn match_condition(
    tag: &EntityTag,
    modified: Option<HttpDate>,
    headers: &HeaderMap<HeaderValue>,
) -> Option<bool>
    ensures { result ≡ match_condition_lem tag.now modified headers.now }
{
    match IfMatch::lists(headers, tag) {
        Some(holds) => Some(holds),
        None => if_unmodified_since(modified, headers),
    }
}

/// Whether the condition of If-None-Match holds, or else that of If-Modified-Since. `None` where
/// the request has neither.
pub fn none_match_condition(
    tag: &EntityTag,
    modified: Option<HttpDate>,
    headers: &HeaderMap<HeaderValue>,
) -> Option<bool>
    ensures { result ≡ none_match_condition_lem tag.now modified headers.now }
{
    match IfNoneMatch::lists(headers, tag) {
        Some(is_listed) => Some(!is_listed),
        None => if_modified_since(modified, headers),
    }
}

/// Whether a text is the date of the last change.
fn is_last_change(modified: Option<HttpDate>, text: &str) -> bool
    ensures { result ≡ is_last_change_lem modified text.now }
{
    let Some(modified) = modified else {
        return false;
    };
    match HttpDate::parse_ascii(text.as_bytes()) {
        Ok(date) => date.unix_secs() == modified.unix_secs(),
        Err(_) => false,
    }
}

/// Whether the value of If-Range names this version: by its tag, or else by its date.
fn names_version(tag: &EntityTag, modified: Option<HttpDate>, value: &HeaderValue) -> bool
    ensures { result ≡ text_names_version tag.now modified (header_text value.now) }
{
    let Some(text) = header_text(value) else {
        return false;
    };
    match tag.equals_text(Comparison::Strong, text) {
        Some(is_equal) => is_equal,
        None => is_last_change(modified, text),
    }
}

/// Whether If-Range is absent, or names this version of the document.
pub fn range_condition(
    tag: &EntityTag,
    modified: Option<HttpDate>,
    headers: &HeaderMap<HeaderValue>,
) -> bool
    ensures { result
        ≡ range_condition_lem tag.now modified (values (codes "if-range") headers.now) }
{
    match headers.get(&IF_RANGE) {
        Some(value) => names_version(tag, modified, value),
        None => true,
    }
}
