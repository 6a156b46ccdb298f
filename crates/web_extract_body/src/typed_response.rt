//! Responses of a content type.
ghost use Rattle.std.specs.Prelude.{◌≡◌, ◌∷◌, [], IfOk, IsTrue, OnOk, codes};
ghost use Rattle.http_header.specs.FieldValue.{is_visible_text, plain_value};
ghost use Rattle.web_reply.specs.Replies.{typed_reply};

use bytes::Bytes;
use http::StatusCode;
use http_header::{CONTENT_TYPE, HeaderMap, HeaderMapError, HeaderValue};
use std::alloc::Global;
use web_reply::{HttpResponse, WholeBody};
use web_request::NoMemory;
use web_texts::Text;

/// Inserts the content type into an empty map. It reserves room for one name first, since a map
/// that grows by itself makes room for six.
fn put_type(
    headers: &mut HeaderMap<HeaderValue>,
    content_type: &'static str,
) -> Result<(), HeaderMapError>
    requires none { headers.old ≡ [] }
    requires visible { IsTrue (is_visible_text content_type.now) }
    ensures { OnOk result
        (headers.new ≡ (codes "content-type", plain_value content_type.now ∷ []) ∷ []) }
{
    headers.reserve(1)?;
    headers.insert(CONTENT_TYPE, HeaderValue::from_static(content_type))?;
    Ok(())
}

/// 200 with this text, of this content type.
pub fn text_response(
    alloc: Global,
    content_type: &'static str,
    text: Text,
) -> Result<HttpResponse<WholeBody>, NoMemory>
    requires visible { IsTrue (is_visible_text content_type.now) }
    ensures { IfOk result (λ reply.
        reply ≡ typed_reply 200 content_type.now (WholeBody.Bytes text)) }
{
    let bytes = Bytes::from_string(text.into_string())?;
    let mut reply = HttpResponse::with_body(alloc, StatusCode::OK, WholeBody::Bytes(bytes));
    match put_type(reply.headers_mut(), content_type) {
        Ok(()) => Ok(reply),
        Err(_) => Err(NoMemory),
    }
}
