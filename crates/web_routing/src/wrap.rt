//! A service whose replies are changed.
use std::alloc::Global;
use web_body::Payload;
use web_reply::{BoxBody, HttpResponse};
use web_request::{App, HttpRequest};
use web_texts::NoMemory;
use web_worker::{Outcome, Service, Whole};

/// Changes replies, each of them: also those to refused arguments.
pub trait Change<A: App> {
    ghost use Rattle.std.specs.Prelude.{OnOk};
    ghost use Rattle.web_request.specs.Request.{Request};
    ghost use Rattle.web_reply.specs.ResponseBodies.{Plain, box_plain};
    ghost use Rattle.web_reply.specs.Replies.{Reply, plain_reply};

    /// Whether, of a reply to this request, it may make that reply.
    ghost changes: { Self → Request A.Layer A.Local A.Conn → Reply Plain → Reply Plain → Type 0 };

    /// Makes of the reply the one that is sent.
    ///
    /// `Err(NoMemory)` if an allocation failed.
    fn change(
        &self,
        alloc: Global,
        request: &HttpRequest<A>,
        reply: &mut HttpResponse<BoxBody<A::Source>>,
    ) -> Result<(), NoMemory>
        ensures { OnOk result (changes self.now request.now.request
            (plain_reply (box_plain A.Source.feed) reply.old)
            (plain_reply (box_plain A.Source.feed) reply.new)) };
}

/// A service each of whose replies is changed, that to a refused argument as well.
#[derive(Drop)]
pub struct Wrap<S, F> {
    inner: S,
    change: F,
}

impl<S, F> Wrap<S, F> {
    ghost use Rattle.std.specs.Prelude.{◌≡◌};

    /// The service that changes each reply of `inner`.
    pub fn new(inner: S, change: F) -> Wrap<S, F>
        ensures inner { result.inner ≡ inner }
        ensures change { result.change ≡ change }
    {
        Wrap { inner, change }
    }
}

impl<A: App, S: Service<A, Whole>, F: Change<A>> Service<A, Whole> for Wrap<S, F> {
    ghost use Rattle.std.specs.Prelude.{◌≡◌, refl};
    ghost use Rattle.web_routing.specs.ServiceRoutes.{changed, changed_keeps, changed_states};
    ghost use Rattle.web_routing.specs.ServiceRoutes.{same_still};

    type Call = S::Call;

    ghost completed = { λ s q. S.completed s.inner q };

    ghost promise = { λ s q m. changed (F.changes s.change (S.completed s.inner q))
        (S.promise s.inner q m) };

    ghost left = { λ s c q. changed (F.changes s.change q) (S.left s.inner c q) };

    ghost is_finished = { λ c. S.is_finished c };

    ghost ready = { λ s. S.ready s.inner };

    ghost states = { changed_states (λ s. s.inner) (λ s. F.changes s.change) S.states };

    ghost same_promises = { λ a b. (b.change ≡ a.change) × S.same_promises a.inner b.inner };

    ghost open = { λ s c q h before. S.open s.inner c q h before };

    ghost same_itself = { λ a. (refl, S.same_itself a.inner) };

    ghost same_on = { λ a b c f g. (
      same_still f.0 g.0,
      S.same_on a.inner b.inner c.inner f.1 g.1,
    ) };

    ghost keeps = { λ a b same. changed_keeps F.changes a.change b.change
        (S.completed a.inner) (S.completed b.inner) (S.promise a.inner) (S.promise b.inner)
        (S.left a.inner) (S.left b.inner) same.0 (S.keeps a.inner b.inner same.1) };

    fn begin(
        &mut self,
        alloc: Global,
        request: &mut HttpRequest<A>,
        payload: &mut Payload<A::Source>,
    ) -> Result<S::Call, NoMemory> {
        self.inner.begin(alloc, request, payload)
    }

    fn poll(
        &mut self,
        alloc: Global,
        call: &mut S::Call,
        request: &HttpRequest<A>,
        outcome: &mut Outcome<A>,
    ) {
        self.inner.poll(alloc, call, request, outcome);
        if let Outcome::Reply(reply) = outcome {
            if self.change.change(alloc, request, reply).is_err() {
                *outcome = Outcome::NoMemory;
            }
        }
    }
}
