//! Futures that are ready.
ghost use Rattle.std.specs.Prelude.{◌≡◌, ℕ, Some};

use std::alloc::Global;
use std::marker::Model;
use web_body::{Poll, Step};

/// The future of a value that is already there: its first poll returns the value.
#[derive(Debug, Drop)]
pub struct Ready<T> {
    value: Option<T>,
}

impl<T> Model for Ready<T> {
    ghost use Rattle.std.specs.Prelude.{Option};

    ghost Value = { Option T };

    ghost view = { λ f. f.value };
}

impl<T> Ready<T> {
    /// A future that returns this value at its first poll.
    pub fn new(value: T) -> Ready<T>
        ensures { result ≡ Some value }
    {
        Ready { value: Some(value) }
    }
}

impl<T: Drop> Poll for Ready<T> {
    ghost use Rattle.std.specs.Prelude.{◌≡◌, Some, false, is_none, ⊤};
    ghost use Rattle.web_body.specs.PollSteps.{Ends, IfReady, MatchStep, NeverNoMemory, Shifts};
    ghost use Rattle.web_extract.specs.ReadyFuture.{GivesHeld, held_some};

    type Output = T;

    ghost is_finished = { λ f. is_none f };

    ghost gives = { λ f n x. GivesHeld f n x };

    ghost needs_no_memory = { λ _. ⊤ };

    ghost some = { λ f h. held_some f h };

    fn finished(&self) -> bool {
        self.value.is_none()
    }

    fn poll(&mut self, _alloc: Global) -> Step<T>
        requires unfinished { is_none self.old ≡ false }
        ensures ends { Ends result (is_none self.new) }
        ensures value { IfReady result (λ x. GivesHeld self.old 0 x) }
        ensures shift { Shifts result
            (λ n x. GivesHeld self.old n x) (λ n x. GivesHeld self.new n x) }
        ensures comes { MatchStep result ⊥ (λ x. self.old ≡ Some x) ⊥ }
        ensures memory { NeverNoMemory result }
    {
        match self.value.take() {
            Some(value) => Step::Ready(value),
            None => unreachable!(),
        }
    }
}
