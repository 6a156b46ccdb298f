//! The site over a connection.
ghost use Rattle.std.specs.Prelude.{◌≡◌, ◌≤◌, ◌^◌, IfErr, IfOk, List, Some, false};
ghost use Rattle.web_request.specs.Body.{ends_in_fault, piece_bytes};
ghost use Rattle.web_request.specs.Pool.{Pool};
ghost use Rattle.web_request.specs.declared.app.NoData.{NoData as Nothing};
ghost use Rattle.web_request.specs.declared.source.Mark.{Mark};
ghost use Rattle.web_messages.specs.declared.limits.Limits.{Limits as LimitsOf};
ghost use Rattle.web_http1.specs.Answers.{AllReplied};
ghost use Rattle.web_http1.specs.Serving.{AnswersAll, Appends};
ghost use Rattle.example_items.specs.ItemConnections.{item_setting};
ghost use Rattle.example_items.specs.ItemSites.{LacksMemory};

use crate::site::{ItemSite, item_site};
use std::alloc::Global;
use web_http1::{Ended, serve_connection};
use web_messages::Limits;
use web_request::{PlainApp, Source};
use web_routing::{RefusedRoute, Whole};
use web_worker::Worker;

/// Serves a connection by the site: reads the source, and appends the reply to each message to
/// `out`.
///
/// If reading does not fail, these are the replies that `item_reply` gives, one after another, or a
/// front of them if an allocation fails.
///
/// # Errors
///
/// There was no memory for a route; nothing was read.
pub fn serve_items<B: Source, S: Source>(
    alloc: Global,
    worker: &mut Worker<PlainApp<B>>,
    limits: Limits,
    source: &mut S,
    out: &mut Vec<u8>,
) -> Result<Ended, RefusedRoute>
    requires room { worker.old.made ≤ 2 ^ 63 }
    ensures whole { IfOk result (λ ended. (marks : List Mark)
        → (S.feed source.old).marks ≡ Some marks → ends_in_fault marks ≡ false
        → AnswersAll (item_setting {D = Nothing} {C = Nothing} B.feed worker.old) limits
        (piece_bytes marks) ended out.old.items out.new.items) }
    ensures refused { IfErr result (λ e. LacksMemory e.cause) }
    ensures appends { Appends out.old.items out.new.items }
{
    let mut site = item_site::<B>(alloc)?;
    Ok(serve_connection::<PlainApp<B>, Whole, ItemSite, S>(
        alloc, worker, &mut site, limits, source, out,
    ))
}

/// Each message has one reply of the site, so by `answers_law` all bytes have answers: what
/// `serve_items` says of them is not said of nothing.
///
/// The contract is the law; there is nothing to call it for.
pub fn items_answered_law<B: Source>()
    ensures { (worker : Pool Nothing) (limits : LimitsOf)
        → AllReplied (item_setting {D = Nothing} {C = Nothing} B.feed worker) limits }
{}
