//! Arguments whose limit can be lowered.
ghost use Rattle.std.specs.Prelude.{◌≡◌, ◌⊎◌, ℕ, List, Result, IfOk, IsOk, false};
ghost use Rattle.web_request.specs.declared.source.Mark.{Mark};
ghost use Rattle.web_request.specs.Request.{Request};
ghost use Rattle.web_body.specs.Payload.{payload_feed};
ghost use Rattle.web_extract.specs.Extracts.{AllowsSome, Extracts};

use crate::from_request::FromRequest;
use std::alloc::Global;
use web_body::Payload;
use web_request::{App, HttpRequest, NoMemory};

/// An argument that is read from the body under a limit, which [`Capped`](crate::Capped) lowers.
///
/// It is implemented for `Bytes` and `String` here, and in `web_extract_body` for `Json` and
/// `Form`.
pub trait WithCap<A: App>: FromRequest<A> {
    /// What `means` says, where the limit is the lesser of the configured one and this cap.
    ghost means_capped: { ℕ → Request A.Layer A.Local A.Conn → List Mark → List Mark → ℕ
        → Result Self Self.Error → Type 0 };

    /// The requests for which `from_request_capped` allocates nothing.
    ghost capped_needs_no_memory: { Request A.Layer A.Local A.Conn → Type 0 } = { λ _. ⊥ };

    /// Begins to extract a value under the lesser of the configured limit and `cap`, in bytes. All
    /// else is as [`FromRequest::from_request`] says.
    fn from_request_capped(
        alloc: Global,
        req: &HttpRequest<A>,
        payload: &mut Payload<A::Source>,
        cap: usize,
    ) -> Result<Self::Future, NoMemory>
        ensures fresh { IfOk result (λ f. Self.Future.is_finished f ≡ false) }
        ensures extracts { IfOk result (λ f. Extracts
            (means_capped cap req.now.request) (Self.Future.gives f)
            (payload_feed A.Source.feed payload.old).marks
            (payload_feed A.Source.feed payload.new).marks) }
        ensures payload { (payload.new ≡ payload.old) ⊎ (payload.new ≡ Payload.None) }
        ensures memory { capped_needs_no_memory req.now.request → IsOk result };

    /// For each cap, request and marks, it cannot be that no result may come.
    ghost some_capped: { (cap : ℕ) (q : Request A.Layer A.Local A.Conn) (m : List Mark)
        → AllowsSome (means_capped cap q m) };
}
