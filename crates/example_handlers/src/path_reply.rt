//! A handler whose reply is promised: with the path of its request.
ghost use Rattle.std.specs.Prelude.{◌≡◌, IfOk, IsSome};
ghost use Rattle.web_body.specs.Payload.{payload_feed};
ghost use Rattle.web_reply.specs.Responders.{text_reply};
ghost use Rattle.web_request.specs.Head.{head_path};
ghost use Rattle.web_worker.specs.Outcomes.{OutcomeMeets, outcome_view};

use crate::request_path::RequestPath;
use std::alloc::Global;
use web_extract::{Itself, Ready};
use web_request::{App, NoMemory, Text};
use web_testing::{reply_law, serve_request};
use web_worker::{Exchange, FnHandler, Outcome, exchange_law};

/// Serves one request by a handler that responds with its path. The source of its body must state
/// its marks.
///
/// The outcome is a reply with status 200 and the path as a plain text, unless an allocation fails.
pub fn serve_path<A: App>(
    alloc: Global,
    root: A::Layer,
    exchange: Exchange<A>,
) -> Result<Outcome<A>, NoMemory>
    requires root { A.Layer.ready root }
    requires told { IsSome (payload_feed A.Source.feed exchange.body).marks }
    ensures { IfOk result (λ o. OutcomeMeets
        (λ reply. reply ≡ text_reply (head_path exchange.parts.head))
        (outcome_view A.Source.feed o)) }
{
    let mut handler = FnHandler(|path: RequestPath| -> Result<Ready<Text>, NoMemory> {
        Ok(Ready::new(path.0))
    });
    exchange_law::<A, RequestPath, Itself, _>(&handler);
    reply_law::<A, RequestPath, _>(&handler);
    serve_request(alloc, root, exchange, &mut handler)
}
