//! Values that are polled.
ghost use Rattle.std.specs.Prelude.{◌≡◌, ℕ, suc, Bool, false};
ghost use Rattle.web_body.specs.declared.poll.Step.{Step};
ghost use Rattle.web_body.specs.PollSteps.{Ends, IfReady, Shifts, NeverNoMemory};
ghost use Rattle.web_body.specs.PollSteps.{GivesSome, GoesOn, ComesNow};

use std::alloc::Global;

/// The result of a poll.
#[derive(Debug, Drop)]
pub enum Step<T> {
    /// Not ready yet: poll again later.
    Pending,
    /// The value. Nothing is left to poll.
    Ready(T),
    /// Allocation failed. Nothing is left to poll.
    NoMemory,
}

/// A value that is ready after some number of polls.
pub trait Poll: Drop {
    /// The value.
    type Output: Drop;

    /// Whether a poll returned `Ready` or `NoMemory`.
    ghost is_finished: { Self → Bool };

    /// Whether this value may come after this number of polls that return `Pending`. A future of
    /// which nothing is known allows every number and value.
    ghost gives: { Self → ℕ → Self.Output → Type 0 };

    /// What makes the next poll allocate nothing, so that it does not return `NoMemory`. A future
    /// that keeps the default promises nothing.
    ghost needs_no_memory: { Self → Type 0 } = { λ _. ⊥ };

    /// Whether a poll returned `Ready` or `NoMemory`, so that it must not be polled again.
    fn finished(&self) -> bool
        ensures { result ≡ is_finished self.now };

    /// Continues as far as it can without waiting.
    fn poll(&mut self, alloc: Global) -> Step<Self::Output>
        requires unfinished { is_finished self.old ≡ false }
        ensures ends { Ends result (is_finished self.new) }
        ensures value { IfReady result (gives self.old 0) }
        ensures shift { Shifts result (gives self.old) (gives self.new) }
        ensures memory { needs_no_memory self.old → NeverNoMemory result };

    /// While it is not finished, it cannot be that no value may come.
    ghost some: { (f : Self) → is_finished f ≡ false → GivesSome (gives f) };
}

/// States what the number of pending polls means, for each poll that takes `old` to `new` with the
/// result `step`. Where it is positive, the result is `Pending` and the number falls by one, or
/// allocation failed; where it is zero, the result is `Ready`, or allocation failed.
///
/// The contract is a law, for callers to cite in proofs; a call of it has no effect.
pub fn pending_count_law<F: Poll>()
    ensures above { (old new : F) (step : Step F.Output) (n : ℕ)
        → Ends step (F.is_finished new) → IfReady step (F.gives old 0)
        → Shifts step (F.gives old) (F.gives new) → GoesOn (F.gives old) (F.gives new) step n }
    ensures zero { (old new : F) (step : Step F.Output)
        → Ends step (F.is_finished new) → IfReady step (F.gives old 0)
        → Shifts step (F.gives old) (F.gives new) → ComesNow (F.gives old) step }
{}
