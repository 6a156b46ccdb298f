//! Handlers as services of the whole request.

use std::alloc::Global;
use std::marker::PhantomData;
use web_body::Payload;
use web_request::{App, HttpRequest};
use web_texts::NoMemory;
use web_worker::{Outcome, Service, Whole};

/// A service that calls a handler, or another service, with these extractors of each request.
///
/// A route has services of whole requests on both sides, so that their extractors may differ. What
/// the handler was called with is not seen any more.
#[derive(Drop)]
pub struct HandlerService<Args, H> {
    handler: H,
    args: PhantomData<Args>,
}

impl<Args, H> HandlerService<Args, H> {
    ghost use Rattle.std.specs.Prelude.{◌≡◌};

    /// The service that calls this handler.
    pub fn new(handler: H) -> HandlerService<Args, H>
        ensures { result.handler ≡ handler }
    {
        HandlerService {
            handler,
            args: PhantomData,
        }
    }
}

impl<A: App, Args, H: Service<A, Args>> Service<A, Whole> for HandlerService<Args, H> {
    ghost use Rattle.web_routing.specs.ServiceRoutes.{inner_states, whole_keeps, whole_promise};

    type Call = H::Call;

    ghost completed = { λ s q. H.completed s.handler q };

    ghost promise = { λ s q m. whole_promise (H.promise s.handler q m) };

    ghost left = { λ s c q. whole_promise (H.left s.handler c q) };

    ghost is_finished = { λ c. H.is_finished c };

    ghost ready = { λ s. H.ready s.handler };

    ghost states = { inner_states (λ s. s.handler) H.states };

    ghost same_promises = { λ a b. H.same_promises a.handler b.handler };

    ghost open = { λ s c q h before. H.open s.handler c q h before };

    ghost same_itself = { λ a. H.same_itself a.handler };

    ghost same_on = { λ a b c first second.
        H.same_on a.handler b.handler c.handler first second };

    ghost keeps = { λ a b same. whole_keeps (H.completed a.handler) (H.completed b.handler)
        (H.promise a.handler) (H.promise b.handler) (H.left a.handler) (H.left b.handler)
        (H.keeps a.handler b.handler same) };

    fn begin(
        &mut self,
        alloc: Global,
        request: &mut HttpRequest<A>,
        payload: &mut Payload<A::Source>,
    ) -> Result<H::Call, NoMemory> {
        self.handler.begin(alloc, request, payload)
    }

    fn poll(
        &mut self,
        alloc: Global,
        call: &mut H::Call,
        request: &HttpRequest<A>,
        outcome: &mut Outcome<A>,
    ) {
        self.handler.poll(alloc, call, request, outcome);
    }
}
