//! Responses with one header.
ghost use Rattle.std.specs.Prelude.{◌≡◌, IfOk};
ghost use Rattle.web_build.specs.RedirectReplies.{one_header_reply};

use http::StatusCode;
use http_header::{HeaderName, HeaderValue};
use std::alloc::Global;
use web_reply::header_setting::{Placing, place_header};
use web_reply::{HttpResponse, WholeBody};
use web_texts::NoMemory;

/// A response with this one header.
pub(crate) fn with_one_header(
    alloc: Global,
    status: StatusCode,
    body: WholeBody,
    name: HeaderName,
    value: HeaderValue,
) -> Result<HttpResponse<WholeBody>, NoMemory>
    ensures { IfOk result (λ reply. reply ≡ one_header_reply status body name value) }
{
    let mut reply = HttpResponse::with_body(alloc, status, body);
    match place_header(reply.headers_mut(), Placing::Replace, name, value) {
        Ok(()) => Ok(reply),
        Err(_) => Err(NoMemory),
    }
}
