//! Services.
ghost use Rattle.std.specs.Prelude.{◌≡◌, Bool, IfOk, List, None, Option, false, ⊤};
ghost use Rattle.web_request.specs.declared.source.Mark.{Mark};
ghost use Rattle.web_request.specs.Request.{Request};
ghost use Rattle.web_body.specs.Payload.{payload_feed};
ghost use Rattle.web_worker.specs.HandlerCalls.{AreOver, Calls};
ghost use Rattle.web_worker.specs.Outcomes.{outcome_view};
ghost use Rattle.web_worker.specs.ServicePromises.{Begins, OnUnfinished, Polls, Promise};
ghost use Rattle.web_worker.specs.ServicePromises.{SameService};
ghost use Rattle.web_worker.specs.ServiceStates.{MovesTo, States, Stays, stateless};

use crate::outcome::Outcome;
use std::alloc::Global;
use web_body::Payload;
use web_request::{App, HttpRequest, NoMemory};

/// The `Args` of a service that is called with the whole request, and not with extractors.
#[derive(Drop)]
pub struct Whole;

/// Makes a response of a request and its payload, over some polls.
///
/// Each handler is one, with `Args` its extractors. One that is called with the whole request, as a
/// route of two services, is a `Service<A, Whole>`.
pub trait Service<A: App, Args> {
    /// A call under way.
    type Call: Drop;

    /// The request as its call sees it, with what the service adds, as parameters or a layer. By
    /// default it adds nothing.
    ghost completed: { Self → Request A.Layer A.Local A.Conn
        → Request A.Layer A.Local A.Conn } = { λ _ q. q };

    /// What is promised of a request whose payload has these marks.
    ghost promise: { Self → Request A.Layer A.Local A.Conn → List Mark → Promise Args };

    /// What is promised of this call for this request, as its call sees it.
    ghost left: { Self → Self.Call → Request A.Layer A.Local A.Conn → Promise Args };

    /// Whether a poll gave an answer.
    ghost is_finished: { Self.Call → Bool };

    /// What it needs in order to be called. By default it needs nothing.
    ghost ready: { Self → Type 0 } = { λ _. ⊤ };

    /// The extractors that its handler was called with, the oldest first, where it keeps them; by
    /// default it keeps none.
    ghost calls: { Self → Option (List Args) } = { λ _. None };

    /// What it keeps from one exchange to the next, and how each reply changes that. By default no
    /// state is stated.
    ghost states: { States Self (Request A.Layer A.Local A.Conn) } = { stateless };

    /// That the second promises what the first does.
    ghost same_promises: { Self → Self → Type 0 };

    /// Begins a call. It takes the payload, or leaves it, and may add to the request.
    ///
    /// `Err(NoMemory)` if an allocation failed.
    fn begin(
        &mut self,
        alloc: Global,
        request: &mut HttpRequest<A>,
        payload: &mut Payload<A::Source>,
    ) -> Result<Self::Call, NoMemory>
        requires ready { ready self.old }
        ensures ready { ready self.new }
        ensures fresh { IfOk result (λ c. is_finished c ≡ false) }
        ensures record { request.new.serial ≡ request.old.serial }
        ensures completes { IfOk result (λ _.
            request.new.request ≡ completed self.old request.old.request) }
        ensures begins { IfOk result (λ c. Begins (promise self.old request.old.request)
            (payload_feed A.Source.feed payload.old).marks (left self.old c request.new.request)) }
        ensures to_come { IfOk result (λ c.
            AreOver (left self.old c request.new.request).arguments → ⊥) }
        ensures same { same_promises self.old self.new }
        ensures uncalled { calls self.new ≡ calls self.old }
        ensures stays { Stays states self.old self.new };

    /// Goes on with a call for the request that `begin` left, as far as it can without waiting, and
    /// stores its answer where it is there: `Outcome::Reply`, or `Outcome::NoMemory` if an
    /// allocation failed. A call that was answered is not polled again.
    fn poll(
        &mut self,
        alloc: Global,
        call: &mut Self::Call,
        request: &HttpRequest<A>,
        outcome: &mut Outcome<A>,
    )
        requires ready { ready self.old }
        requires unfinished { is_finished call.old ≡ false }
        requires unanswered { outcome.old ≡ Outcome.Unfinished }
        ensures ready { ready self.new }
        ensures unfinished { OnUnfinished (outcome_view A.Source.feed outcome.new)
            (is_finished call.new ≡ false) }
        ensures polls { Polls (outcome_view A.Source.feed outcome.new)
            (left self.old call.old request.now.request)
            (left self.old call.new request.now.request) }
        ensures same { same_promises self.old self.new }
        ensures calls { Calls (AreOver (left self.old call.old request.now.request).arguments)
            (left self.old call.old request.now.request).arguments
            (AreOver (left self.old call.new request.now.request).arguments)
            (outcome_view A.Source.feed outcome.new) (calls self.old) (calls self.new) }
        ensures moves { MovesTo states request.now.request
            (outcome_view A.Source.feed outcome.new) self.old self.new };

    /// A call that is not finished has not come to its end before the next poll.
    ghost open: { (s : Self) (c : Self.Call) (q : Request A.Layer A.Local A.Conn)
        → is_finished c ≡ false → (left s c q).before 0 → ⊥ };

    /// A service promises what it promises.
    ghost same_itself: { (s : Self) → same_promises s s };

    /// What promises the same as one that promises the same, promises the same.
    ghost same_on: { (a b c : Self) → same_promises a b → same_promises b c → same_promises a c };

    /// A service that promises the same makes the same of each request and each call.
    ghost keeps: { (a b : Self) → same_promises a b → SameService (completed a) (completed b)
        (promise a) (promise b) (left a) (left b) };
}
