//! Handlers as services.
ghost use Rattle.std.specs.Prelude.{◌≡◌, false};
ghost use Rattle.web_worker.specs.HandlerServices.{HandledOrStays};
ghost use Rattle.web_worker.specs.Outcomes.{outcome_view};

use crate::answering::{error_outcome, response_outcome};
use crate::handler::Handler;
use crate::outcome::Outcome;
use crate::service::Service;
use std::alloc::Global;
use web_body::{Payload, Poll, Step};
use web_extract::FromRequest;
use web_reply::Responder;
use web_request::{App, HttpRequest, NoMemory};

/// The future that a call of a handler waits for.
#[derive(Drop)]
pub enum Work<U, W> {
    /// The future of its extractors.
    Extracting(U),
    /// The future of the handler that was called with them.
    Handling(W),
}

impl<A: App, Args: FromRequest<A>, H: Handler<Args>> Service<A, Args> for H
where
    H::Output: Responder<A>,
{
    ghost use Rattle.std.specs.Prelude.{refl};
    ghost use Rattle.web_worker.specs.HandlerPromises.{SamePromises};
    ghost use Rattle.web_worker.specs.HandlerServices.{handler_keeps, request_promise, rules_of};
    ghost use Rattle.web_worker.specs.HandlerServices.{work_finished, work_open, work_promise};

    type Call = Work<Args::Future, H::Future>;

    ghost promise = { λ h q m. request_promise (rules_of Args.means Args.Error.converts
        (H.answers h) H.Output.responds) q m };

    ghost left = { λ h c q. work_promise (rules_of Args.means Args.Error.converts
        (H.answers h) H.Output.responds) Args.Future.gives H.Future.gives c q };

    ghost is_finished = { λ c. work_finished Args.Future.is_finished H.Future.is_finished c };

    ghost ready = { λ h. H.ready h };

    ghost calls = { λ h. H.calls h };

    ghost same_promises = { λ a b. SamePromises (H.answers a) (H.answers b) };

    ghost open = { λ h c q. work_open (rules_of Args.means Args.Error.converts
        (H.answers h) H.Output.responds) Args.Future.gives H.Future.gives
        Args.Future.is_finished H.Future.is_finished Args.Future.some H.Future.some c q };

    ghost same_itself = { λ a. record { kept = λ v n y h. h; same = λ v n y h. h } };

    ghost same_on = { λ a b c first second. record {
      kept = λ v n y h. first.kept v n y (second.kept v n y h);
      same = λ v n y h. second.same v n y (first.same v n y h);
    } };

    ghost keeps = { λ a b same. handler_keeps Args.means Args.Error.converts H.Output.responds
        Args.Future.gives H.Future.gives (H.answers a) (H.answers b) same };

    fn begin(
        &mut self,
        alloc: Global,
        request: &mut HttpRequest<A>,
        payload: &mut Payload<A::Source>,
    ) -> Result<Work<Args::Future, H::Future>, NoMemory> {
        Ok(Work::Extracting(Args::from_request(alloc, request, payload)?))
    }

    fn poll(
        &mut self,
        alloc: Global,
        call: &mut Work<Args::Future, H::Future>,
        request: &HttpRequest<A>,
        outcome: &mut Outcome<A>,
    ) {
        match call {
            Work::Extracting(future) => match future.poll(alloc) {
                Step::Pending => {}
                Step::Ready(Ok(args)) => match self.call(alloc, args) {
                    Ok(future) => begin_handling(alloc, call, future, request, outcome),
                    Err(_) => *outcome = Outcome::NoMemory,
                },
                Step::Ready(Err(error)) => *outcome = error_outcome(alloc, error),
                Step::NoMemory => *outcome = Outcome::NoMemory,
            },
            Work::Handling(future) => match future.poll(alloc) {
                Step::Pending => {}
                Step::Ready(value) => *outcome = response_outcome(alloc, value, request),
                Step::NoMemory => *outcome = Outcome::NoMemory,
            },
        }
    }
}

/// Polls the future of a handler that was called, and keeps it where it is not ready.
///
/// It is polled before it is put into its place, which costs more than a poll: most futures are
/// ready at once.
fn begin_handling<A: App, U: Drop, W: Poll>(
    alloc: Global,
    call: &mut Work<U, W>,
    mut future: W,
    request: &HttpRequest<A>,
    outcome: &mut Outcome<A>,
)
where
    W::Output: Responder<A>,
    requires unfinished { W.is_finished future ≡ false }
    requires unanswered { outcome.old ≡ Outcome.Unfinished }
    ensures { HandledOrStays W.is_finished W.gives W.Output.responds future request.now.request
        call.new (outcome_view A.Source.feed outcome.new) }
{
    match future.poll(alloc) {
        Step::Pending => *call = Work::Handling(future),
        Step::Ready(value) => *outcome = response_outcome(alloc, value, request),
        Step::NoMemory => *outcome = Outcome::NoMemory,
    }
}
