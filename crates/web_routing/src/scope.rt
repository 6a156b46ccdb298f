//! Services whose requests have a layer of their own.
use std::alloc::Global;
use std::rc::Rc;
use web_body::Payload;
use web_request::{App, HttpRequest};
use web_texts::NoMemory;
use web_worker::{Outcome, Service, Whole};

/// A service whose requests have one more layer, the nearest: its configurations and data come
/// before those of the layers that the request has.
#[derive(Drop)]
pub struct Scope<L, S> {
    layer: Rc<L>,
    inner: S,
}

impl<L, S> Scope<L, S> {
    ghost use Rattle.std.specs.Prelude.{◌≡◌};

    /// The service whose requests have this layer.
    pub fn new(layer: Rc<L>, inner: S) -> Scope<L, S>
        ensures layer { result.layer ≡ layer }
        ensures inner { result.inner ≡ inner }
    {
        Scope { layer, inner }
    }
}

impl<A: App, S: Service<A, Whole>> Service<A, Whole> for Scope<A::Layer, S> {
    ghost use Rattle.std.specs.Prelude.{◌≡◌, refl};
    ghost use Rattle.web_routing.specs.ServiceRoutes.{inner_states, same_still, with_keeps};
    ghost use Rattle.web_routing.specs.ServiceRoutes.{with_layer};

    type Call = S::Call;

    ghost completed = { λ s q. S.completed s.inner (with_layer s.layer.value q) };

    ghost promise = { λ s q m. S.promise s.inner (with_layer s.layer.value q) m };

    ghost left = { λ s c q. S.left s.inner c q };

    ghost is_finished = { λ c. S.is_finished c };

    ghost ready = { λ s. A.Layer.ready s.layer.value × S.ready s.inner };

    ghost states = { inner_states (λ s. s.inner) S.states };

    ghost same_promises = { λ a b. (b.layer.value ≡ a.layer.value)
        × S.same_promises a.inner b.inner };

    ghost open = { λ s c q h before. S.open s.inner c q h before };

    ghost same_itself = { λ a. (refl, S.same_itself a.inner) };

    ghost same_on = { λ a b c f g. (
      same_still f.0 g.0,
      S.same_on a.inner b.inner c.inner f.1 g.1,
    ) };

    ghost keeps = { λ a b same. with_keeps with_layer a.layer.value b.layer.value
        (S.completed a.inner) (S.completed b.inner) (S.promise a.inner) (S.promise b.inner)
        (S.left a.inner) (S.left b.inner) same.0 (S.keeps a.inner b.inner same.1) };

    fn begin(
        &mut self,
        alloc: Global,
        request: &mut HttpRequest<A>,
        payload: &mut Payload<A::Source>,
    ) -> Result<S::Call, NoMemory> {
        request.add_layer(self.layer.clone()?)?;
        self.inner.begin(alloc, request, payload)
    }

    fn poll(
        &mut self,
        alloc: Global,
        call: &mut S::Call,
        request: &HttpRequest<A>,
        outcome: &mut Outcome<A>,
    ) {
        self.inner.poll(alloc, call, request, outcome);
    }
}
