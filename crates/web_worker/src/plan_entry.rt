//! The entries of a plan.

/// An entry of a plan: the number of an exchange that is to be polled, counted from 0.
///
/// It is implemented for `usize` and for `u32`, which takes half the memory.
pub trait PlanEntry: Copy {
    ghost use Rattle.std.specs.Prelude.{◌≡◌, ℕ};

    /// The number of the exchange.
    ghost number: { Self → ℕ };

    /// The number of the exchange, as an index.
    fn index(self) -> usize
        ensures { result ≡ number self };
}

impl PlanEntry for usize {
    ghost number = { λ n. n };

    fn index(self) -> usize {
        self
    }
}

impl PlanEntry for u32 {
    ghost number = { λ n. n };

    fn index(self) -> usize {
        self as usize
    }
}
