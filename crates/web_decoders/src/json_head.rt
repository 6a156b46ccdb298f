//! The tests of a JSON body by the head of its request.
ghost use Rattle.std.specs.Prelude.{◌≡◌, Ok, false, true};
ghost use Rattle.std.specs.Prelude.{IfOk, IfSome, IsOk, codes, option_copied};
ghost use Rattle.http_header.specs.HeaderMap.{get};
ghost use Rattle.web_request.specs.MessageFields.{first_content_type};
ghost use Rattle.web_body.specs.HeadTests.{content_length};
ghost use Rattle.web_decoders.specs.JsonHeads.{head_under, json_head, json_refusal, length_in};
ghost use Rattle.web_decoders.specs.TypePredicates.{AllowsBy, ReadsType, is_json_type};
ghost use Rattle.web_decoders.specs.WrittenTypes.{NeedsNoReading};
ghost use Rattle.std.specs.Option.{option_and_then};

use crate::written_type::is_written;
use http_header::{CONTENT_LENGTH, HeaderMap, HeaderValue};
use std::alloc::Global;
use web_body::{AllowType, JsonPayloadError, PayloadError, is_coded};
use web_request::{App, HttpMessage, HttpRequest};
use web_texts::{APPLICATION_JSON, Fail, Mime, NoMemory, number_of, trim_bytes};

/// What a JSON body is tested by before any of it is read.
#[derive(Clone, Copy, Debug)]
pub struct JsonHead {
    /// The media type may be read.
    pub is_read: bool,
    /// The length that the head declares, in bytes.
    pub length: Option<usize>,
    /// The head names a coding.
    pub is_coded: bool,
    /// The length, and the first limit that was set below it.
    pub exceeded: Option<(usize, usize)>,
}

impl JsonHead {
    /// The head of a body, before any limit is set.
    pub fn of(headers: &HeaderMap<HeaderValue>, is_read: bool) -> JsonHead
        ensures { result ≡ json_head is_read headers.now }
    {
        JsonHead {
            is_read,
            length: trimmed_length(headers),
            is_coded: is_coded(headers),
            exceeded: None,
        }
    }

    /// The same head under a limit, in bytes.
    pub fn under(self, limit: usize) -> JsonHead
        ensures { result ≡ head_under limit self }
    {
        let exceeded = match (self.exceeded, self.length) {
            (None, Some(length)) if limit < length => Some((length, limit)),
            (exceeded, _) => exceeded,
        };
        JsonHead { exceeded, ..self }
    }

    /// The first test that refuses the body.
    pub fn refusal(self) -> Option<JsonPayloadError>
        ensures { result ≡ json_refusal self }
    {
        if !self.is_read {
            return Some(JsonPayloadError::ContentType);
        }
        match self.exceeded {
            Some((length, limit)) => Some(JsonPayloadError::OverflowKnownLength { length, limit }),
            None if self.is_coded => {
                Some(JsonPayloadError::Payload(PayloadError::UnsupportedEncoding))
            }
            None => None,
        }
    }
}

/// The declared length (RFC 9110, section 8.6), where it is digits between blanks.
fn trimmed_length(headers: &HeaderMap<HeaderValue>) -> Option<usize>
    ensures { result ≡ option_and_then length_in (get headers.now content_length) }
{
    match headers.get(CONTENT_LENGTH) {
        Some(value) => length_in(value),
        None => None,
    }
}

fn length_in(value: &HeaderValue) -> Option<usize>
    ensures { result ≡ length_in value.now }
{
    match number_of(trim_bytes(value.as_bytes()), usize::MAX as u64) {
        Some(length) => Some(length as usize),
        None => None,
    }
}

/// Whether the body of a request may be read as JSON, by its media type. The predicate is asked of
/// media types that are none of JSON, and only where a media type is required.
pub fn reads_type<A: App, P: AllowType>(
    alloc: Global,
    req: &HttpRequest<A>,
    ctype_fn: Option<&P>,
    ctype_required: bool,
) -> Result<bool, NoMemory>
    requires { IfSome ctype_fn (λ p. P.ready p.now) }
    ensures value { IfOk result (ReadsType P.allows_type
        (option_copied ctype_fn.entry) ctype_required req.now.request.head.headers) }
    ensures unrequired { ctype_required ≡ false → result ≡ Ok true }
    ensures memory { NeedsNoReading (codes "application/json")
        (first_content_type req.now.request.head.headers) → IsOk result }
{
    if !ctype_required {
        return Ok(true);
    }
    // The usual spelling takes no memory.
    if is_written(&req.head().headers, APPLICATION_JSON.as_bytes()) {
        return Ok(true);
    }
    match req.mime_type(alloc) {
        Ok(Some(media_type)) => Ok(allows_by(&media_type, ctype_fn)),
        Ok(None) | Err(Fail::Of(_)) => Ok(false),
        Err(Fail::NoMemory) => Err(NoMemory),
    }
}

fn allows_by<P: AllowType>(media_type: &Mime, ctype_fn: Option<&P>) -> bool
    requires { IfSome ctype_fn (λ p. P.ready p.now) }
    ensures { AllowsBy P.allows_type (option_copied ctype_fn.entry) media_type.now
        (is_json_type media_type.now) result }
{
    if is_json_type(media_type) {
        return true;
    }
    match ctype_fn {
        Some(predicate) => predicate.allows(media_type),
        None => false,
    }
}

fn is_json_type(media_type: &Mime) -> bool
    ensures { result ≡ is_json_type media_type.now }
{
    media_type.subtype() == "json" || media_type.suffix() == Some("json")
}
