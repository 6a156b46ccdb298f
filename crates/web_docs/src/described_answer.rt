//! The answer to a request for content that need not be in memory.
ghost use Rattle.std.specs.Prelude.{IfOk};
ghost use Rattle.web_docs.specs.DescribedReplies.{IsDescribedReply, IsWithin};

use crate::described::Described;
use crate::replies::described_reply;
use crate::sends::Sends;
use http::Method;
use http_header::{HeaderMap, HeaderValue};
use std::alloc::Global;
use web_reply::HttpResponse;
use web_texts::NoMemory;

/// The reply to a request of this method and these headers for content of this description, which
/// is `length` bytes long: its status and its headers, and which bytes it sends. No byte of the
/// content is read. The conditions are tested as by `answer_document`, in its order, and a
/// description without a date has these differences:
///
/// - If-Modified-Since and If-Unmodified-Since count as absent (RFC 9110, sections 13.1.3 and
///   13.1.4).
/// - An If-Range that is a date names no version (section 13.1.5).
/// - No reply has Last-Modified.
///
/// `Sends::Part` comes with 206 alone, and its positions are below the length. Returns `NoMemory`
/// where allocation failed.
pub fn answer_described(
    alloc: Global,
    described: &Described,
    length: u64,
    method: &Method,
    headers: &HeaderMap<HeaderValue>,
) -> Result<HttpResponse<Sends>, NoMemory>
    ensures reply { IfOk result (λ reply.
        IsDescribedReply described.now length method.now headers.now reply) }
    ensures within { IfOk result (λ reply. IsWithin length reply.body) }
{
    let reply = described_reply(alloc, described, length, method, headers)?;
    Ok(reply)
}
