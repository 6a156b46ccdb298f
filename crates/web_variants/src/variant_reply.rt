//! The reply of the variant that a client accepts most.
ghost use Rattle.std.specs.Prelude.{◌≡◌, ◌<◌, IfOk, Some, None, length, slice_index_or};
ghost use Rattle.web_variants.specs.VariantReplies.{IsVariantReply, reply_of, reply_with};
ghost use Rattle.web_variants.specs.VariantReplies.{variant_reply};
ghost use Rattle.web_variants.specs.declared.stored_variants.Variant.{Variant as Stored};

use crate::choice::choose;
use crate::printed_headers::vary;
use crate::stored_variants::Variants;
use http::StatusCode;
use http_header::{HeaderMap, HeaderValue};
use std::alloc::Global;
use web_reply::{HttpResponse, WholeBody};
use web_request::{App, HttpRequest};
use web_texts::NoMemory;

fn set_headers(headers: &mut HeaderMap<HeaderValue>, map: HeaderMap<HeaderValue>)
    ensures { headers.new ≡ map }
{
    *headers = map;
}

fn replied(
    alloc: Global,
    status: StatusCode,
    headers: HeaderMap<HeaderValue>,
    body: WholeBody,
) -> HttpResponse<WholeBody>
    ensures { result ≡ reply_with status headers body }
{
    let mut reply = HttpResponse::with_body(alloc, status, body);
    set_headers(reply.headers_mut(), headers);
    reply
}

/// The reply with the variant at this place.
pub(crate) fn reply_at(
    alloc: Global,
    variants: &Variants,
    place: usize,
) -> Result<HttpResponse<WholeBody>, NoMemory>
    requires { place < length variants.now }
    ensures { IfOk result (λ reply. (v : Stored) → v ≡ slice_index_or variants.now place v
        → reply ≡ reply_of (Some v)) }
{
    let headers = variants.headers(place)?;
    let body = variants.as_slice()[place].body.clone()?;
    Ok(replied(alloc, StatusCode::OK, headers, WholeBody::Bytes(body)))
}

/// An empty 406.
pub(crate) fn not_acceptable(alloc: Global) -> Result<HttpResponse<WholeBody>, NoMemory>
    ensures { IfOk result (λ reply. reply ≡ reply_of None) }
{
    let headers = vary(alloc)?;
    Ok(replied(alloc, StatusCode::NOT_ACCEPTABLE, headers, WholeBody::Empty))
}

/// The reply to a request for one of these variants: status 200 with the one that `choose` gives,
/// its headers and its body, uncopied; and an empty 406 where no variant is acceptable. Both say
/// `vary: accept, accept-language, accept-encoding`. Returns `NoMemory` where allocation failed.
pub fn answer_variant<A: App>(
    alloc: Global,
    variants: &Variants,
    req: &HttpRequest<A>,
) -> Result<HttpResponse<WholeBody>, NoMemory>
    ensures chosen { IfOk result (IsVariantReply req.now.request.head.headers variants.now) }
    ensures reply { IfOk result (λ reply.
        reply ≡ variant_reply req.now.request.head.headers variants.now) }
{
    match choose(alloc, variants, req.headers())? {
        Some(place) => reply_at(alloc, variants, place),
        None => not_acceptable(alloc),
    }
}
