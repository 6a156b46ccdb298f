//! The reply to a request for a page.
ghost use Rattle.std.specs.Prelude.{◌≡◌, IfOk};
ghost use Rattle.web_variants.specs.PageReplies.{IsPageReply, fallback_of};
ghost use Rattle.web_variants.specs.PageReplies.{page_reply as page_reply_lem};
ghost use Rattle.web_variants.specs.VariantReplies.{reply_of};

use crate::choice::choose;
use crate::page::Page;
use crate::variant_reply::{not_acceptable, reply_at};
use std::alloc::Global;
use web_reply::{HttpResponse, WholeBody};
use web_request::{App, HttpRequest};
use web_texts::NoMemory;

/// The reply where no variant is acceptable.
fn fallback_reply(alloc: Global, page: &Page) -> Result<HttpResponse<WholeBody>, NoMemory>
    ensures { IfOk result (λ reply. reply ≡ reply_of (fallback_of page.now)) }
{
    match page.fallback() {
        Some(place) => reply_at(alloc, page.variants(), place),
        None => not_acceptable(alloc),
    }
}

/// The reply to a request for a page: as that of `answer_variant`, but 200 with the fallback, where
/// one is set and no variant is acceptable. Returns `NoMemory` where allocation failed.
pub fn answer_page<A: App>(
    alloc: Global,
    page: &Page,
    req: &HttpRequest<A>,
) -> Result<HttpResponse<WholeBody>, NoMemory>
    ensures chosen { IfOk result (IsPageReply req.now.request.head.headers page.now) }
    ensures reply { IfOk result (λ reply.
        reply ≡ page_reply_lem req.now.request.head.headers page.now) }
{
    let stored = page.variants();
    match choose(alloc, stored, req.headers())? {
        Some(place) => reply_at(alloc, stored, place),
        None => fallback_reply(alloc, page),
    }
}
