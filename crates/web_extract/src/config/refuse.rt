//! Handlers of refusals.
ghost use Rattle.std.specs.Prelude.{◌≡◌, IfOk, ⊤};
ghost use Rattle.web_request.specs.Head.{Head, head_view};
ghost use Rattle.web_reply.specs.Replies.{Fault};
ghost use Rattle.web_extract.specs.Refusals.{ClosureRefuses, no_refusal};

use std::alloc::Global;
use web_body::{AllowType, ByFn, JsonPayloadError, PathError, QueryPayloadError, UrlencodedError};
use web_reply::{Cause, Error, IoKind};
use web_request::{NoMemory, RequestHead};
use web_texts::Mime;

/// A configured handler: what answers refusals `E` in place of their own errors.
pub trait Refuse<E>: Drop {
    /// What its closures need so that they may be called.
    ghost ready: { Self → Type 0 } = { λ _. Unit {0} };

    /// Whether this error may be answered to a refusal of a request with this head. A handler that
    /// is a function `f` states `λ h e head x. x ≡ f h e head`. One that keeps the default promises
    /// nothing.
    ghost refuses: { Self → E → Head → Fault → Type 0 } = { λ _ _ _ _. ⊤ };

    /// The error of a refusal, for a request with this head.
    fn refuse(&self, alloc: Global, fault: E, head: &RequestHead) -> Result<Error, NoMemory>
        requires { ready self.now }
        ensures { IfOk result (λ x. refuses self.now fault (head_view head.now) x) };
}

impl<E: Drop, F: Fn(E, &RequestHead) -> Result<Error, NoMemory> + Drop> Refuse<E> for ByFn<F> {
    ghost use Rattle.web_extract.specs.Refusals.{ClosureRefuses};

    ghost ready = { λ f. F.IsAlwaysCallable f.0 };

    ghost refuses = { λ f e head x. ClosureRefuses F.Fn f.0 e head x };

    fn refuse(&self, _alloc: Global, fault: E, head: &RequestHead) -> Result<Error, NoMemory> {
        (self.0)(fault, head)
    }
}

/// The type of a handler of refusals that a layer does not have. It has no value: no function
/// returns one, and only this module could make one.
#[derive(Debug, Drop)]
pub struct NoHandler {
    sealed: (),
}

impl NoHandler {
    fn no_refusal(&self) -> Error
        ensures { result ≡ no_refusal }
    {
        let () = self.sealed;
        Error::from(Cause::Io(IoKind::Other))
    }
}

impl Refuse<JsonPayloadError> for NoHandler {
    ghost use Rattle.std.specs.Prelude.{◌≡◌};
    ghost use Rattle.web_extract.specs.Refusals.{no_refusal};

    ghost refuses = { λ _ _ _ x. x ≡ no_refusal };

    fn refuse(
        &self,
        _alloc: Global,
        _fault: JsonPayloadError,
        _head: &RequestHead,
    ) -> Result<Error, NoMemory> {
        Ok(self.no_refusal())
    }
}

impl Refuse<UrlencodedError> for NoHandler {
    ghost use Rattle.std.specs.Prelude.{◌≡◌};
    ghost use Rattle.web_extract.specs.Refusals.{no_refusal};

    ghost refuses = { λ _ _ _ x. x ≡ no_refusal };

    fn refuse(
        &self,
        _alloc: Global,
        _fault: UrlencodedError,
        _head: &RequestHead,
    ) -> Result<Error, NoMemory> {
        Ok(self.no_refusal())
    }
}

impl Refuse<PathError> for NoHandler {
    ghost use Rattle.std.specs.Prelude.{◌≡◌};
    ghost use Rattle.web_extract.specs.Refusals.{no_refusal};

    ghost refuses = { λ _ _ _ x. x ≡ no_refusal };

    fn refuse(
        &self,
        _alloc: Global,
        _fault: PathError,
        _head: &RequestHead,
    ) -> Result<Error, NoMemory> {
        Ok(self.no_refusal())
    }
}

impl Refuse<QueryPayloadError> for NoHandler {
    ghost use Rattle.std.specs.Prelude.{◌≡◌};
    ghost use Rattle.web_extract.specs.Refusals.{no_refusal};

    ghost refuses = { λ _ _ _ x. x ≡ no_refusal };

    fn refuse(
        &self,
        _alloc: Global,
        _fault: QueryPayloadError,
        _head: &RequestHead,
    ) -> Result<Error, NoMemory> {
        Ok(self.no_refusal())
    }
}

/// The type of a predicate of media types that a layer does not have. It has no value: no function
/// returns one, and only this module could make one.
#[derive(Debug, Drop)]
pub struct NoType {
    sealed: (),
}

impl AllowType for NoType {
    ghost use Rattle.std.specs.Prelude.{◌≡◌, false};

    ghost allows_type = { λ _ _ answer. answer ≡ false };

    fn allows(&self, _media_type: &Mime) -> bool {
        let () = self.sealed;
        false
    }
}
