//! The answer to a request from a store.
ghost use Rattle.std.specs.Prelude.{◌≡◌, IfOk, IsOk, None};
ghost use Rattle.std.specs.FinMap as map;
ghost use Rattle.web_request.specs.Head.{head_path};
ghost use Rattle.web_docs.specs.DocumentReplies.{Answers, IsDocumentReply};

use crate::content::filled;
use crate::replies::described_reply;
use crate::store::Store;
use crate::stored::StoredDocument;
use http::{Method, StatusCode};
use http_header::{HeaderMap, HeaderValue};
use std::alloc::Global;
use web_reply::{HttpResponse, WholeBody};
use web_request::{App, HttpRequest};
use web_texts::NoMemory;

/// Answers a request from a store: an empty 404 where the store has no document of the request's
/// path, and else what the conditions of the request come to (RFC 7232, section 6), tested in this
/// order:
///
/// 1. 405 with Allow where the method is neither GET nor HEAD.
/// 2. 412 where If-Match does not list the document's tag, or, without If-Match, the document was
///    changed after If-Unmodified-Since.
/// 3. 304 with ETag and Last-Modified where If-None-Match lists the tag, or, without If-None-Match,
///    the document was not changed after If-Modified-Since.
/// 4. 206 to a GET with a Range of one range of bytes, where If-Range is absent or names this
///    version: the bytes that it selects (RFC 7233, section 2.1). 416 where it selects none.
/// 5. 200 with the document. Two or more ranges and other units give this too.
///
/// The reply to HEAD has no body. A condition that cannot be read counts as absent, and so does a
/// Range; an If-Range that cannot be read names no version. Returns `NoMemory` where allocation
/// failed.
pub fn answer_document<A: App>(
    alloc: Global,
    store: &Store,
    req: &HttpRequest<A>,
) -> Result<HttpResponse<WholeBody>, NoMemory>
    ensures reply { IfOk result (λ reply.
        IsDocumentReply (map.get store.now (head_path req.now.request.head))
        req.now.request.head reply) }
    ensures memory { map.get store.now (head_path req.now.request.head) ≡ None → IsOk result }
{
    match store.stored(req.path()) {
        Some(document) => document_reply(alloc, document, req.method(), req.headers()),
        None => Ok(HttpResponse::new(alloc, StatusCode::NOT_FOUND)),
    }
}

/// The reply to a request of this method and these headers for a document.
fn document_reply(
    alloc: Global,
    document: &StoredDocument,
    method: &Method,
    headers: &HeaderMap<HeaderValue>,
) -> Result<HttpResponse<WholeBody>, NoMemory>
    ensures { IfOk result (λ reply. Answers document.now method.now headers.now reply) }
{
    let content = document.body();
    let reply = described_reply(alloc, document, content.len() as u64, method, headers)?;
    filled(content, reply)
}
