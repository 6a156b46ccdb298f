//! Arguments of handlers.
ghost use Rattle.std.specs.Prelude.{◌≡◌, ◌⊎◌, ℕ, List, Result, IsOk, IfOk, false};
ghost use Rattle.web_request.specs.declared.source.Mark.{Mark};
ghost use Rattle.web_request.specs.Request.{Request};
ghost use Rattle.web_body.specs.Payload.{payload_feed};
ghost use Rattle.web_reply.specs.Replies.{Fault};
ghost use Rattle.web_extract.specs.Extracts.{Extracts, ExtractsEmpty, ExtractsUnread};
ghost use Rattle.web_extract.specs.Extracts.{AllowsSome};

use std::alloc::Global;
use web_body::{Payload, Poll};
use web_reply::Error;
use web_request::{App, HttpRequest, NoMemory};

/// A type of arguments of handlers: its values are extracted from a request and its payload.
pub trait FromRequest<A: App>: Sized + Drop {
    /// Why a request is refused.
    type Error: Into<Error> + Drop;

    /// The extraction in progress.
    type Future: Poll<Output = Result<Self, Self::Error>>;

    /// Whether, for this request with these marks in its payload, these marks may be left over, and
    /// this result may come after this number of polls that return `Pending`.
    ghost means: { Request A.Layer A.Local A.Conn → List Mark → List Mark → ℕ
        → Result Self Self.Error → Type 0 };

    /// The requests for which `from_request` allocates nothing, so that it cannot fail. A type that
    /// keeps the default promises nothing.
    ghost needs_no_memory: { Request A.Layer A.Local A.Conn → Type 0 } = { λ _. ⊥ };

    /// The requests whose payload is left as it is and decides nothing of the value, so that over
    /// every source no other value comes than for that request. A type that keeps the default
    /// promises nothing.
    ghost leaves: { Request A.Layer A.Local A.Conn → Type 0 } = { λ _. ⊥ };

    /// Begins to extract a value. It takes the payload or leaves it as it is, also where allocation
    /// fails.
    fn from_request(
        alloc: Global,
        req: &HttpRequest<A>,
        payload: &mut Payload<A::Source>,
    ) -> Result<Self::Future, NoMemory>
        ensures fresh { IfOk result (λ f. Self.Future.is_finished f ≡ false) }
        ensures extracts { IfOk result (λ f. Extracts
            (means req.now.request) (Self.Future.gives f)
            (payload_feed A.Source.feed payload.old).marks
            (payload_feed A.Source.feed payload.new).marks) }
        ensures payload { (payload.new ≡ payload.old) ⊎ (payload.new ≡ Payload.None) }
        ensures left { leaves req.now.request → payload.new ≡ payload.old }
        ensures unread { leaves req.now.request
            → IfOk result (λ f. ExtractsUnread (means req.now.request) (Self.Future.gives f)) }
        ensures memory { needs_no_memory req.now.request → IsOk result };

    /// Begins to extract a value from the request alone, with an empty payload.
    final fn extract(alloc: Global, req: &HttpRequest<A>) -> Result<Self::Future, NoMemory>
        ensures fresh { IfOk result (λ f. Self.Future.is_finished f ≡ false) }
        ensures extracts { IfOk result (λ f.
            ExtractsEmpty (means req.now.request) (Self.Future.gives f)) }
        ensures memory { needs_no_memory req.now.request → IsOk result }
    {
        let mut payload = Payload::None;
        Self::from_request(alloc, req, &mut payload)
    }

    /// For each request and marks, it cannot be that no result may come.
    ghost some: { (q : Request A.Layer A.Local A.Conn) (m : List Mark) → AllowsSome (means q m) };

    /// Each refusal converts into an error.
    ghost converted: { (e : Self.Error) → (f : Fault) × Self.Error.converts e f };
}
