//! One of two services, chosen by the request. Nested, it is one of many.
use std::alloc::Global;
use web_body::Payload;
use web_request::{App, HttpRequest};
use web_texts::NoMemory;
use web_worker::{Outcome, Service, Whole};

/// A value of one of two types.
#[derive(Drop)]
pub enum OneOf<X, Y> {
    First(X),
    Other(Y),
}

/// Which requests the first of two services serves.
pub trait Choose<A: App> {
    ghost use Rattle.std.specs.Prelude.{◌≡◌, Bool};
    ghost use Rattle.web_request.specs.Request.{Request};

    /// Whether it takes this request.
    ghost chosen: { Self → Request A.Layer A.Local A.Conn → Bool };

    /// Whether the first service serves this request.
    fn takes(&self, request: &HttpRequest<A>) -> bool
        ensures { result ≡ chosen self.now request.now.request };
}

/// Two services, of which a chooser takes one for each request. The other is often such a pair
/// again.
#[derive(Drop)]
pub struct Route<C, S, T> {
    chooser: C,
    first: S,
    other: T,
}

impl<C, S, T> Route<C, S, T> {
    ghost use Rattle.std.specs.Prelude.{◌≡◌};

    /// The first service serves the requests that the chooser takes, the other one all others.
    pub fn new(chooser: C, first: S, other: T) -> Route<C, S, T>
        ensures chooser { result.chooser ≡ chooser }
        ensures first { result.first ≡ first }
        ensures other { result.other ≡ other }
    {
        Route {
            chooser,
            first,
            other,
        }
    }
}

impl<A: App, C: Choose<A>, S: Service<A, Whole>, T: Service<A, Whole>> Service<A, Whole>
    for Route<C, S, T> {
    ghost use Rattle.std.specs.Prelude.{◌≡◌, refl};
    ghost use Rattle.web_routing.specs.ServiceRoutes.{both_states, chosen_promise};
    ghost use Rattle.web_routing.specs.ServiceRoutes.{chosen_request, one_finished, one_open};
    ghost use Rattle.web_routing.specs.ServiceRoutes.{one_promise, route_keeps, same_still};

    type Call = OneOf<S::Call, T::Call>;

    ghost completed = { λ s q. chosen_request (C.chosen s.chooser q)
        (S.completed s.first q) (T.completed s.other q) };

    ghost promise = { λ s q m. chosen_promise (C.chosen s.chooser q)
        (S.promise s.first q m) (T.promise s.other q m) };

    ghost left = { λ s c q. one_promise (S.left s.first) (T.left s.other) c q };

    ghost is_finished = { λ c. one_finished S.is_finished T.is_finished c };

    ghost ready = { λ s. S.ready s.first × T.ready s.other };

    ghost states = { both_states (λ s. s.first) (λ s. s.other) S.states T.states };

    ghost same_promises = { λ a b. (b.chooser ≡ a.chooser)
        × S.same_promises a.first b.first × T.same_promises a.other b.other };

    ghost open = { λ s c q. one_open S.is_finished T.is_finished (S.left s.first) (T.left s.other)
        (S.open s.first) (T.open s.other) c q };

    ghost same_itself = { λ a. (refl, S.same_itself a.first, T.same_itself a.other) };

    ghost same_on = { λ a b c f g. (
      same_still f.0 g.0,
      S.same_on a.first b.first c.first f.1 g.1,
      T.same_on a.other b.other c.other f.2 g.2,
    ) };

    ghost keeps = { λ a b same. route_keeps C.chosen a.chooser b.chooser
        (S.completed a.first) (S.completed b.first) (S.promise a.first) (S.promise b.first)
        (S.left a.first) (S.left b.first)
        (T.completed a.other) (T.completed b.other) (T.promise a.other) (T.promise b.other)
        (T.left a.other) (T.left b.other) same.0
        (S.keeps a.first b.first same.1) (T.keeps a.other b.other same.2) };

    fn begin(
        &mut self,
        alloc: Global,
        request: &mut HttpRequest<A>,
        payload: &mut Payload<A::Source>,
    ) -> Result<OneOf<S::Call, T::Call>, NoMemory> {
        if self.chooser.takes(request) {
            Ok(OneOf::First(self.first.begin(alloc, request, payload)?))
        } else {
            Ok(OneOf::Other(self.other.begin(alloc, request, payload)?))
        }
    }

    fn poll(
        &mut self,
        alloc: Global,
        call: &mut OneOf<S::Call, T::Call>,
        request: &HttpRequest<A>,
        outcome: &mut Outcome<A>,
    ) {
        match call {
            OneOf::First(call) => self.first.poll(alloc, call, request, outcome),
            OneOf::Other(call) => self.other.poll(alloc, call, request, outcome),
        }
    }
}
