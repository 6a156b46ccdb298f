//! Predicates of media types.
ghost use Rattle.std.specs.Prelude.{Bool};
ghost use Rattle.std.specs.Fn.{FnReturnsAt};
ghost use Rattle.web_texts.specs.MediaTypes.{MediaType};

use web_texts::Mime;

/// A predicate of the media types that are read as JSON, beside those of JSON itself.
pub trait AllowType: Drop {
    /// What its closures need so that they may be called.
    ghost ready: { Self → Type 0 } = { λ _. Unit {0} };

    /// Whether this may be answered for a media type. A predicate that is a function `f` states
    /// `λ p m answer. answer ≡ f m`.
    ghost allows_type: { Self → MediaType → Bool → Type 0 };

    /// Whether bodies of this media type are read.
    fn allows(&self, media_type: &Mime) -> bool
        requires { ready self.now }
        ensures { allows_type self.now media_type.now result };
}

/// A closure as a predicate or as a handler.
#[derive(Drop)]
pub struct ByFn<F>(pub F);

impl<F: Fn(&Mime) -> bool + Drop> AllowType for ByFn<F> {
    ghost ready = { λ f. F.IsAlwaysCallable f.0 };

    ghost allows_type = { λ f m answer. FnReturnsAt F.Fn f.0 m answer };

    fn allows(&self, media_type: &Mime) -> bool {
        (self.0)(media_type)
    }
}
