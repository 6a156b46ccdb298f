//! The reply to a request for content of which a description and the length are known.
ghost use Rattle.std.specs.Prelude.{◌≡◌, ◌∷◌, [], IfOk, None, Some, codes};
ghost use Rattle.http_header.specs.FieldValue.{plain_value};
ghost use Rattle.web_negotiate.specs.SelectedPositions.{Selects};
ghost use Rattle.web_docs.specs.DescribedReplies.{IsDescribedReply, IsSentPart, SendsFor};
ghost use Rattle.web_docs.specs.DescribedReplies.{range_header, range_value, reply_with};
ghost use Rattle.web_docs.specs.DescribedReplies.{sends_for_method, sent_part};
ghost use Rattle.web_docs.specs.Descriptions.{whole_headers};

use crate::header_maps::put;
use crate::reply_headers::ReplyHeaders;
use crate::sends::Sends;
use crate::verdict::{Verdict, is_head, read_verdict};
use http::{Method, StatusCode};
use http_header::{ALLOW, CONTENT_RANGE, HeaderMap, HeaderValue};
use std::alloc::Global;
use web_entities::{ByteRangeSpec, ContentRangeSpec};
use web_headers::TryIntoHeaderValue;
use web_negotiate::prelude::SatisfiableRange;
use web_reply::HttpResponse;
use web_texts::NoMemory;

fn set_headers(headers: &mut HeaderMap<HeaderValue>, map: HeaderMap<HeaderValue>)
    ensures { headers.new ≡ map }
{
    *headers = map;
}

fn response(
    alloc: Global,
    status: StatusCode,
    headers: HeaderMap<HeaderValue>,
    sends: Sends,
) -> HttpResponse<Sends>
    ensures { result ≡ reply_with status headers sends }
{
    let mut reply = HttpResponse::with_body(alloc, status, sends);
    set_headers(reply.headers_mut(), headers);
    reply
}

fn allow_map(alloc: Global) -> Result<HeaderMap<HeaderValue>, NoMemory>
    ensures { IfOk result (λ m. m ≡ (codes "allow", plain_value (codes "GET, HEAD") ∷ []) ∷ []) }
{
    let mut map = HeaderMap::empty(alloc);
    put(&mut map, ALLOW, HeaderValue::from_static("GET, HEAD"))?;
    Ok(map)
}

fn content_range(
    alloc: Global,
    ends: Option<(u64, u64)>,
    size: u64,
) -> Result<HeaderValue, NoMemory>
    ensures { IfOk result (λ value. value ≡ range_value ends size) }
{
    let spec = ContentRangeSpec::Bytes {
        range: ends,
        instance_length: Some(size),
    };
    match spec.try_into_value(alloc) {
        Ok(value) => Ok(value),
        Err(_) => Err(NoMemory),
    }
}

fn partial_reply<H: ReplyHeaders>(
    alloc: Global,
    content: &H,
    length: u64,
    ends: (u64, u64),
) -> Result<HttpResponse<Sends>, NoMemory>
    ensures { IfOk result (λ reply.
        reply ≡ sent_part (H.describes content.now) length (Some ends)) }
{
    let range = content_range(alloc, Some(ends), length)?;
    let map = content.part_headers(alloc, range)?;
    let sends = Sends::Part(ends.0, ends.1);
    Ok(response(alloc, StatusCode::PARTIAL_CONTENT, map, sends))
}

fn unsatisfiable_reply(alloc: Global, length: u64) -> Result<HttpResponse<Sends>, NoMemory>
    ensures { IfOk result (λ reply.
        reply ≡ reply_with 416 (range_header None length) Sends.Nothing) }
{
    let mut map = HeaderMap::empty(alloc);
    put(&mut map, CONTENT_RANGE, content_range(alloc, None, length)?)?;
    Ok(empty_reply(alloc, StatusCode::RANGE_NOT_SATISFIABLE, map))
}

fn part_reply<H: ReplyHeaders>(
    alloc: Global,
    content: &H,
    length: u64,
    spec: ByteRangeSpec,
) -> Result<HttpResponse<Sends>, NoMemory>
    ensures { IfOk result (λ reply.
        IsSentPart (H.describes content.now) length (Selects spec length) reply) }
{
    match spec.to_satisfiable_range(length) {
        Some(ends) => partial_reply(alloc, content, length, ends),
        None => unsatisfiable_reply(alloc, length),
    }
}

fn whole_reply<H: ReplyHeaders>(alloc: Global, content: &H) -> Result<HttpResponse<Sends>, NoMemory>
    ensures { IfOk result (λ reply.
        reply ≡ reply_with 200 (whole_headers (H.describes content.now)) Sends.All) }
{
    let map = content.whole_headers(alloc)?;
    Ok(response(alloc, StatusCode::OK, map, Sends::All))
}

/// A reply that sends nothing.
fn empty_reply(
    alloc: Global,
    status: StatusCode,
    headers: HeaderMap<HeaderValue>,
) -> HttpResponse<Sends>
    ensures { result ≡ reply_with status headers Sends.Nothing }
{
    response(alloc, status, headers, Sends::Nothing)
}

/// The reply to a GET by its verdict.
fn reply_to<H: ReplyHeaders>(
    alloc: Global,
    content: &H,
    length: u64,
    verdict: Verdict,
) -> Result<HttpResponse<Sends>, NoMemory>
    ensures { IfOk result (λ reply.
        SendsFor (H.describes content.now) length verdict reply) }
{
    match verdict {
        Verdict::MethodNotAllowed => {
            let map = allow_map(alloc)?;
            Ok(empty_reply(alloc, StatusCode::METHOD_NOT_ALLOWED, map))
        }
        Verdict::PreconditionFailed => {
            let map = HeaderMap::empty(alloc);
            Ok(empty_reply(alloc, StatusCode::PRECONDITION_FAILED, map))
        }
        Verdict::NotModified => {
            let map = content.validator_headers(alloc)?;
            Ok(empty_reply(alloc, StatusCode::NOT_MODIFIED, map))
        }
        Verdict::Part(spec) => part_reply(alloc, content, length, spec),
        Verdict::All => whole_reply(alloc, content),
    }
}

/// The reply that sends nothing, where the method is HEAD.
fn for_method(method: &Method, reply: HttpResponse<Sends>) -> HttpResponse<Sends>
    ensures { result ≡ sends_for_method method.now reply }
{
    if is_head(method) {
        reply.set_body(Sends::Nothing)
    } else {
        reply
    }
}

/// The reply to a request of this method and these headers for content of this length.
pub fn described_reply<H: ReplyHeaders>(
    alloc: Global,
    content: &H,
    length: u64,
    method: &Method,
    headers: &HeaderMap<HeaderValue>,
) -> Result<HttpResponse<Sends>, NoMemory>
    ensures { IfOk result (λ reply.
        IsDescribedReply (H.describes content.now) length method.now headers.now reply) }
{
    let verdict = read_verdict(method, headers, content.entity_tag(), content.last_change());
    let reply = reply_to(alloc, content, length, verdict)?;
    Ok(for_method(method, reply))
}
