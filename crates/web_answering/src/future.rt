//! One exchange as a future.
ghost use Rattle.std.specs.Prelude.{◌≡◌, ◌+◌, ◌<◌, ◌^◌, IfOk, Some, false};
ghost use Rattle.web_reply.specs.ResponseBodies.{Plain, box_plain};
ghost use Rattle.web_reply.specs.Replies.{Reply, plain_reply};
ghost use Rattle.web_worker.specs.Exchanges.{FlightView};
ghost use Rattle.web_worker.specs.RecordsMade.{may_make};
ghost use Rattle.web_answering.specs.FlightReplies.{MayReply, HasReplied, is_answered};

use futures::Future;
use futures::task::{Context, Poll};
use std::alloc::Global;
use web_reply::{BoxBody, HttpResponse};
use web_request::App;
use web_texts::NoMemory;
use web_worker::{Exchange, Flight, Outcome, Serves, Service, Worker, poll_flight};

/// Answers one exchange, with a worker and a service of its own. A handler is a service.
///
/// Each poll polls the exchange once. Where that leaves it unanswered, the future asks to be polled
/// again at once: an exchange has no waker of its own. A body that is in memory is read in the
/// first poll.
#[derive(Drop)]
pub struct Answering<A: App, Args, S: Service<A, Args>> {
    alloc: Global,
    worker: Worker<A>,
    service: S,
    /// `None` once its reply was taken.
    flight: Option<Flight<A, Args, S>>,
}

/// Whether the flight is answered, or its reply was taken.
fn is_answered<A: App, Args, S: Service<A, Args>>(flight: &Option<Flight<A, Args, S>>) -> bool
    ensures { result ≡ is_answered flight.now }
{
    match flight {
        Some(flight) => flight.outcome().is_some(),
        None => true,
    }
}

/// Takes the flight's reply. `NoMemory` where it has none.
fn take_reply<A: App, Args, S: Service<A, Args>>(
    flight: &mut Option<Flight<A, Args, S>>,
) -> Result<HttpResponse<BoxBody<A::Source>>, NoMemory>
    ensures { IfOk result (λ reply.
        HasReplied flight.old (plain_reply (box_plain A.Source.feed) reply)) }
{
    match flight.take() {
        Some(flight) => match flight.into_outcome() {
            Outcome::Reply(reply) => Ok(reply),
            Outcome::Unfinished | Outcome::NoMemory => Err(NoMemory),
        },
        None => Err(NoMemory),
    }
}

/// One poll of the flight, where there is one.
fn poll_once<A: App, Args, S: Service<A, Args>>(
    alloc: Global,
    worker: &mut Worker<A>,
    service: &mut S,
    flight: &mut Option<Flight<A, Args, S>>,
)
    requires ready { S.ready service.old }
    requires room { worker.old.made + may_make flight.old < 2 ^ 64 }
    ensures ready { S.ready service.new }
    ensures room { worker.new.made + may_make flight.new < 2 ^ 64 }
    ensures later { (r : Reply Plain) → is_answered flight.new ≡ false
        → MayReply (⟦<S as Serves<A, Args>>⟧.setting service.new worker.new) flight.new r
        → MayReply (⟦<S as Serves<A, Args>>⟧.setting service.old worker.old) flight.old r }
    ensures now { (r : Reply Plain) → HasReplied flight.new r
        → MayReply (⟦<S as Serves<A, Args>>⟧.setting service.old worker.old) flight.old r }
{
    if let Some(flight) = flight {
        poll_flight(alloc, worker, service, flight);
    }
}

impl<A: App, Args, S: Service<A, Args> + Drop> Future for Answering<A, Args, S> {
    ghost use Rattle.std.specs.Prelude.{◌+◌, ◌<◌, ◌^◌, IfOk};
    ghost use Rattle.web_reply.specs.ResponseBodies.{box_plain};
    ghost use Rattle.web_reply.specs.Replies.{plain_reply};
    ghost use Rattle.web_worker.specs.RecordsMade.{may_make};
    ghost use Rattle.web_answering.specs.FlightReplies.{MayReply};

    type Output = Result<HttpResponse<BoxBody<A::Source>>, NoMemory>;

    ghost can_poll = { λ f. S.ready f.service × (f.worker.made + may_make f.flight < 2 ^ 64) };

    ghost gives = { λ f result. IfOk result (λ reply.
        MayReply (⟦<S as Serves<A, Args>>⟧.setting f.service f.worker) f.flight
        (plain_reply (box_plain A.Source.feed) reply)) };

    fn poll(&mut self, cx: &mut Context<'_>) -> Poll<Self::Output> {
        poll_once(
            self.alloc,
            &mut self.worker,
            &mut self.service,
            &mut self.flight,
        );
        if is_answered(&self.flight) {
            return Poll::Ready(take_reply(&mut self.flight));
        }
        cx.yield_now()
    }
}

impl<A: App, Args, S: Service<A, Args> + Drop> Answering<A, Args, S> {
    /// A future that answers this exchange. It gives a reply that the exchange may have by what the
    /// service promises; where it can have only one, that one. It
    /// gives `NoMemory` where an allocation failed.
    ///
    /// It may be polled where the service may be called (`Service::ready`) and the worker can count
    /// one more record.
    pub fn new(
        alloc: Global,
        worker: Worker<A>,
        service: S,
        exchange: Exchange<A>,
    ) -> Answering<A, Args, S>
        ensures worker { result.worker ≡ worker }
        ensures service { result.service ≡ service }
        ensures flight { result.flight ≡ Some (FlightView.Waiting exchange) }
    {
        Answering {
            alloc,
            worker,
            service,
            flight: Some(Flight::new(exchange)),
        }
    }
}
