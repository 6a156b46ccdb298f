//! Responses with a content type.
ghost use Rattle.std.specs.Prelude.{◌≡◌, ◌∷◌, [], IfOk, IsTrue, OnOk, codes};
ghost use Rattle.http_header.specs.FieldValue.{is_visible_text, plain_value};
ghost use Rattle.web_reply.specs.Replies.{plain_text, typed_reply};

use crate::body::WholeBody;
use crate::response::HttpResponse;
use bytes::Bytes;
use http::StatusCode;
use http_header::{CONTENT_TYPE, HeaderMap, HeaderMapError, HeaderValue};
use std::alloc::Global;
use web_texts::NoMemory;

pub const PLAIN_TEXT: &str = "text/plain; charset=utf-8";

pub const OCTET_STREAM: &str = "application/octet-stream";

/// Inserts the content type into an empty map. It reserves room for one name first, since a map
/// that grows by itself makes room for six.
fn put_type(
    headers: &mut HeaderMap<HeaderValue>,
    content_type: &'static str,
) -> Result<(), HeaderMapError>
    requires none { headers.old ≡ [] }
    requires visible { IsTrue (is_visible_text content_type.now) }
    ensures { OnOk result
        (headers.new ≡ (codes "content-type", plain_value content_type.now ∷ []) ∷ []) }
{
    headers.reserve(1)?;
    headers.insert(CONTENT_TYPE, HeaderValue::from_static(content_type))?;
    Ok(())
}

/// A response with these bytes as its body and this content type as its one header.
pub fn typed(
    alloc: Global,
    status: StatusCode,
    content_type: &'static str,
    bytes: Bytes,
) -> Result<HttpResponse<WholeBody>, NoMemory>
    requires visible { IsTrue (is_visible_text content_type.now) }
    ensures { IfOk result (λ reply.
        reply ≡ typed_reply status content_type.now (WholeBody.Bytes bytes)) }
{
    let mut reply = HttpResponse::with_body(alloc, status, WholeBody::Bytes(bytes));
    match put_type(reply.headers_mut(), content_type) {
        Ok(()) => Ok(reply),
        Err(_) => Err(NoMemory),
    }
}
