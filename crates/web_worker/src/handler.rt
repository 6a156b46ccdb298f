//! Handlers, which are called with the arguments of an exchange.
ghost use Rattle.std.specs.Prelude.{◌≡◌, ℕ, List, Option, IfOk, None, ⊤, false};
ghost use Rattle.web_worker.specs.HandlerPromises.{Grows, SamePromises, Within};

use std::alloc::Global;
use web_body::Poll;
use web_request::NoMemory;

/// Turns the arguments of an exchange into a value that responds to it.
///
/// A call returns a future of that value. No call changes what the handler promises for later
/// ones. For contracts, a handler may keep the list of the arguments that it was called with.
pub trait Handler<Args> {
    type Output: Drop;

    type Future: Poll<Output = Self::Output>;

    /// Whether, called with these arguments, it may give this value after this number of polls
    /// that return `Pending`. A handler that keeps the default promises nothing.
    ghost answers: { Self → Args → ℕ → Self.Output → Type 0 } = { λ _ _ _ _. ⊤ };

    /// The arguments that it was called with, the oldest first, where it keeps them; by default it
    /// keeps none.
    ghost calls: { Self → Option (List Args) } = { λ _. None };

    /// What it needs in order to be called.
    ghost ready: { Self → Type 0 } = { λ _. ⊤ };

    /// Begins to serve an exchange with these arguments.
    ///
    /// `Err(NoMemory)` if an allocation failed; the exchange is then answered with
    /// `Outcome::NoMemory`.
    fn call(&mut self, alloc: Global, args: Args) -> Result<Self::Future, NoMemory>
        requires { ready self.old }
        ensures ready { ready self.new }
        ensures fresh { IfOk result (λ f. Self.Future.is_finished f ≡ false) }
        ensures answers { IfOk result (λ f. Within (Self.Future.gives f) (answers self.old args)) }
        ensures same_promises { SamePromises (answers self.old) (answers self.new) }
        ensures calls { Grows result args (calls self.old) (calls self.new) };
}

/// A handler that calls a closure. It keeps no list of its calls.
#[derive(Drop)]
pub struct FnHandler<F>(pub F);

impl<Args, T: Drop, W: Poll<Output = T>, F: Fn(Args) -> Result<W, NoMemory>> Handler<Args>
    for FnHandler<F> {
    ghost use Rattle.web_worker.specs.HandlerPromises.{FnAnswers, MakesFresh};

    type Output = T;

    type Future = W;

    ghost answers = { λ h x n y. FnAnswers (F.post h.0) W.gives x n y };

    ghost calls = { λ h. None };

    ghost ready = { λ h. F.IsAlwaysCallable h.0 × MakesFresh (F.post h.0) W.is_finished };

    fn call(&mut self, _alloc: Global, args: Args) -> Result<W, NoMemory> {
        (self.0)(args)
    }
}
