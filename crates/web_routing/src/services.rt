//! The routes of a router, in a balanced tree, and their services by their numbers.
ghost use Rattle.std.specs.Prelude.{◌≡◌, ℕ, Bool, IfErr, IfOk, List, None, OnOk, false};
ghost use Rattle.web_request.specs.declared.source.Mark.{Mark};
ghost use Rattle.web_request.specs.Request.{Request};
ghost use Rattle.web_body.specs.Payload.{payload_feed};
ghost use Rattle.web_worker.specs.HandlerCalls.{AreOver, Calls};
ghost use Rattle.web_worker.specs.Outcomes.{outcome_view};
ghost use Rattle.web_worker.specs.ServicePromises.{Begins, OnUnfinished, Polls, Promise};
ghost use Rattle.web_worker.specs.ServicePromises.{SameService};
ghost use Rattle.web_worker.specs.ServiceStates.{MovesTo, States, Stays};
ghost use Rattle.web_worker.specs.declared.service.Whole.{Whole};
ghost use Rattle.web_routing.specs.RouteTables.{AddedAll, RefusesOneOf, RouteRow};

use crate::route::OneOf;
use crate::route_table::{RefusedRoute, RouteTable};
use std::alloc::Global;
use web_body::Payload;
use web_request::{App, HttpRequest};
use web_texts::NoMemory;
use web_worker::{Outcome, Service, Whole};

/// Routes in an order. A leaf is an `Endpoint`. A pair has the routes of two trees, those of the first
/// one before those of the second.
pub trait Routes {
    /// The method and the pattern of each, in their order.
    ghost rows: { Self → List RouteRow };

    /// How many there are.
    ghost count: { ℕ };

    /// How many there are, or the greatest `usize` if there are more.
    fn len(&self) -> usize
        ensures { result ≡ count };

    /// Adds each of them to a table, up to the first that is refused.
    fn add_to(&self, alloc: Global, table: &mut RouteTable) -> Result<(), RefusedRoute>
        ensures ok { OnOk result (AddedAll (rows self.now) table.old table.new) }
        ensures refused { IfErr result (λ e. RefusesOneOf (rows self.now) table.old e) };
}

/// The services of routes, each by the number of its route, counted from 0.
///
/// A tree of as many routes on both sides asks for the number some six times where it holds fifty.
pub trait Services<A: App>: Routes {
    /// A call under way.
    type Call: Drop;

    /// The request as the call of this number sees it.
    ghost completed: { Self → ℕ → Request A.Layer A.Local A.Conn
        → Request A.Layer A.Local A.Conn };

    /// What the service of this number promises of a request whose payload has these marks.
    ghost promise: { Self → ℕ → Request A.Layer A.Local A.Conn → List Mark → Promise Whole };

    /// What is promised of this call for this request, as its call sees it.
    ghost left: { Self → Self.Call → Request A.Layer A.Local A.Conn → Promise Whole };

    /// Whether a poll gave an answer.
    ghost is_finished: { Self.Call → Bool };

    /// What they need in order to be called.
    ghost ready: { Self → Type 0 };

    /// What they keep from one exchange to the next.
    ghost states: { States Self (Request A.Layer A.Local A.Conn) };

    /// That the second promise what the first do.
    ghost same_promises: { Self → Self → Type 0 };

    /// Begins a call of the service of this number; the last one serves all greater numbers.
    ///
    /// `Err(NoMemory)` if an allocation failed.
    fn begin_at(
        &mut self,
        alloc: Global,
        number: usize,
        request: &mut HttpRequest<A>,
        payload: &mut Payload<A::Source>,
    ) -> Result<Self::Call, NoMemory>
        requires ready { ready self.old }
        ensures ready { ready self.new }
        ensures fresh { IfOk result (λ c. is_finished c ≡ false) }
        ensures record { request.new.serial ≡ request.old.serial }
        ensures completes { IfOk result (λ _.
            request.new.request ≡ completed self.old number request.old.request) }
        ensures begins { IfOk result (λ c. Begins (promise self.old number request.old.request)
            (payload_feed A.Source.feed payload.old).marks (left self.old c request.new.request)) }
        ensures to_come { IfOk result (λ c.
            AreOver (left self.old c request.new.request).arguments → ⊥) }
        ensures same { same_promises self.old self.new }
        ensures stays { Stays states self.old self.new };

    /// Goes on with a call, as `Service::poll` does.
    fn poll_at(
        &mut self,
        alloc: Global,
        call: &mut Self::Call,
        request: &HttpRequest<A>,
        outcome: &mut Outcome<A>,
    )
        requires ready { ready self.old }
        requires unfinished { is_finished call.old ≡ false }
        requires unanswered { outcome.old ≡ Outcome.Unfinished }
        ensures ready { ready self.new }
        ensures unfinished { OnUnfinished (outcome_view A.Source.feed outcome.new)
            (is_finished call.new ≡ false) }
        ensures polls { Polls (outcome_view A.Source.feed outcome.new)
            (left self.old call.old request.now.request)
            (left self.old call.new request.now.request) }
        ensures same { same_promises self.old self.new }
        ensures calls { Calls (AreOver (left self.old call.old request.now.request).arguments)
            (left self.old call.old request.now.request).arguments
            (AreOver (left self.old call.new request.now.request).arguments)
            (outcome_view A.Source.feed outcome.new) None None }
        ensures moves { MovesTo states request.now.request
            (outcome_view A.Source.feed outcome.new) self.old self.new };

    /// A call that is not finished has not come to its end before the next poll.
    ghost open: { (s : Self) (c : Self.Call) (q : Request A.Layer A.Local A.Conn)
        → is_finished c ≡ false → (left s c q).before 0 → ⊥ };

    ghost same_itself: { (s : Self) → same_promises s s };

    ghost same_on: { (a b c : Self) → same_promises a b → same_promises b c → same_promises a c };

    ghost keeps: { (n : ℕ) (a b : Self) → same_promises a b → SameService (completed a n)
        (completed b n) (promise a n) (promise b n) (left a) (left b) };
}

/// The routes of two trees side by side.
impl<X: Routes, Y: Routes> Routes for (X, Y) {
    ghost use Rattle.std.specs.Prelude.{◌+◌, ◌++◌, ◌-◌, ◌^◌, min};

    ghost rows = { λ s. X.rows s.0 ++ Y.rows s.1 };

    ghost count = { min (X.count + Y.count) (2 ^ 64 - 1) };

    #[inline(always)]
    fn len(&self) -> usize {
        self.0.len().saturating_add(self.1.len())
    }

    fn add_to(&self, alloc: Global, table: &mut RouteTable) -> Result<(), RefusedRoute> {
        self.0.add_to(alloc, table)?;
        self.1.add_to(alloc, table)
    }
}

/// The services of the second tree have the numbers behind those of the first.
impl<A: App, X: Services<A>, Y: Services<A>> Services<A> for (X, Y) {
    ghost use Rattle.std.specs.Prelude.{◌-◌, nat_lt};
    ghost use Rattle.web_routing.specs.ServiceRoutes.{both_states, chosen_promise};
    ghost use Rattle.web_routing.specs.ServiceRoutes.{chosen_request, one_finished, one_open};
    ghost use Rattle.web_routing.specs.ServiceRoutes.{one_promise, two_keeps};

    type Call = OneOf<X::Call, Y::Call>;

    ghost completed = { λ s n q. chosen_request (nat_lt n X.count)
        (X.completed s.0 n q) (Y.completed s.1 (n - X.count) q) };

    ghost promise = { λ s n q m. chosen_promise (nat_lt n X.count)
        (X.promise s.0 n q m) (Y.promise s.1 (n - X.count) q m) };

    ghost left = { λ s c q. one_promise (X.left s.0) (Y.left s.1) c q };

    ghost is_finished = { λ c. one_finished X.is_finished Y.is_finished c };

    ghost ready = { λ s. X.ready s.0 × Y.ready s.1 };

    ghost states = { both_states (λ s. s.0) (λ s. s.1) X.states Y.states };

    ghost same_promises = { λ a b. X.same_promises a.0 b.0 × Y.same_promises a.1 b.1 };

    ghost open = { λ s c q. one_open X.is_finished Y.is_finished (X.left s.0) (Y.left s.1)
        (X.open s.0) (Y.open s.1) c q };

    ghost same_itself = { λ a. (X.same_itself a.0, Y.same_itself a.1) };

    ghost same_on = { λ a b c f g. (
      X.same_on a.0 b.0 c.0 f.0 g.0,
      Y.same_on a.1 b.1 c.1 f.1 g.1,
    ) };

    ghost keeps = { λ n a b same. two_keeps n X.count
        (X.completed a.0) (X.completed b.0) (X.promise a.0) (X.promise b.0)
        (X.left a.0) (X.left b.0)
        (Y.completed a.1) (Y.completed b.1) (Y.promise a.1) (Y.promise b.1)
        (Y.left a.1) (Y.left b.1)
        (λ k. X.keeps k a.0 b.0 same.0) (λ k. Y.keeps k a.1 b.1 same.1) };

    fn begin_at(
        &mut self,
        alloc: Global,
        number: usize,
        request: &mut HttpRequest<A>,
        payload: &mut Payload<A::Source>,
    ) -> Result<OneOf<X::Call, Y::Call>, NoMemory> {
        let first = self.0.len();
        if number < first {
            Ok(OneOf::First(self.0.begin_at(alloc, number, request, payload)?))
        } else {
            Ok(OneOf::Other(self.1.begin_at(alloc, number - first, request, payload)?))
        }
    }

    fn poll_at(
        &mut self,
        alloc: Global,
        call: &mut OneOf<X::Call, Y::Call>,
        request: &HttpRequest<A>,
        outcome: &mut Outcome<A>,
    ) {
        match call {
            OneOf::First(call) => self.0.poll_at(alloc, call, request, outcome),
            OneOf::Other(call) => self.1.poll_at(alloc, call, request, outcome),
        }
    }
}
