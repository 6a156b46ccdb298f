//! The first example: one request, served by a closure.
ghost use Rattle.std.specs.Prelude.{◌≡◌, ◌⊎◌, [], ◌∷◌, None, Some, codes, IfOk};
ghost use Rattle.web_request.specs.declared.source.Mark.TheVariants.{Piece, Stall};
ghost use Rattle.web_body.specs.HeadTests.{refusal_by};
ghost use Rattle.web_body.specs.MessageBody.{default_limit};
ghost use Rattle.web_body.specs.Payload.{payload_feed};
ghost use Rattle.web_reply.specs.Responders.{bytes_reply};
ghost use Rattle.web_worker.specs.Outcomes.{OutcomeView.NoMemory as no_memory, OutcomeView.Replied};
ghost use Rattle.web_worker.specs.Outcomes.{outcome_views};

use bytes::Bytes;
use std::alloc::Global;
use std::rc::Rc;
use web_body::{Mark, Marks, Payload};
use web_extract::{Itself, Ready, seen_places_law};
use web_request::{AppConfig, NoData, NoMemory, PlainApp, RequestHead, Source};
use web_worker::{Exchange, FnHandler, Outcome, Worker, exchange_law, serve_all};

/// An application without configuration or data of its own, whose bodies are in memory.
pub type Site = PlainApp<Marks>;

/// A worker that made no record yet.
fn new_worker(alloc: Global) -> Result<Worker<Site>, NoMemory>
    ensures { IfOk result (λ worker. worker.made ≡ 0) }
{
    let config = AppConfig::local(alloc)?;
    let root = Rc::new(alloc, NoData)?;
    Worker::new(alloc, root, config, 0)
}

/// A request whose body comes in two pieces with a stall between.
fn new_exchange(alloc: Global, head: RequestHead) -> Result<Exchange<Site>, NoMemory>
    ensures body { IfOk result (λ x. (payload_feed ⟦<Marks as Source>⟧.feed x.body).marks
        ≡ Some (Piece (codes "he") ∷ Stall ∷ Piece (codes "llo") ∷ [])) }
    ensures headers { IfOk result (λ x. x.parts.head.headers ≡ head.headers) }
{
    let marks = vec![in alloc;
        Mark::Piece(Bytes::from_static(b"he")),
        Mark::Stall,
        Mark::Piece(Bytes::from_static(b"llo")),
    ]?;
    Ok(Exchange {
        head,
        params: Vec::new(alloc),
        layers: Vec::new(alloc),
        conn: None,
        local: None,
        body: Payload::Stream(Marks::new(marks)),
    })
}

/// Serves a request of this head by a handler that responds with the body, in two polls. The head
/// must not refuse its body, by a Content-Length above the default limit or that cannot be read, or
/// by a content coding.
///
/// The one outcome is a reply with status 200 and the bytes `hello`, unless an allocation fails.
pub fn serve_hello(alloc: Global, head: RequestHead) -> Result<Vec<Outcome<Site>>, NoMemory>
    requires { refusal_by head.headers default_limit ≡ None }
    ensures { IfOk result (λ os.
        (outcome_views ⟦<Marks as Source>⟧.feed os.items
        ≡ Replied (bytes_reply (codes "hello")) ∷ [])
        ⊎ (outcome_views ⟦<Marks as Source>⟧.feed os.items ≡ no_memory ∷ [])) }
{
    let mut worker = new_worker(alloc)?;
    let exchanges = vec![in alloc; new_exchange(alloc, head)?]?;
    let mut handler = FnHandler(|body: Bytes| -> Result<Ready<Bytes>, NoMemory> {
        Ok(Ready::new(body))
    });
    seen_places_law::<Site>();
    exchange_law::<Site, Bytes, Itself, _>(&handler);
    serve_all(alloc, &mut worker, exchanges, &[0, 0], &mut handler).map_err(|_| NoMemory)
}
