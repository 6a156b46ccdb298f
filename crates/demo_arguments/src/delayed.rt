//! A value that comes after some polls.
ghost use Rattle.std.specs.Prelude.{◌≡◌, Some};

use std::alloc::Global;
use std::marker::Model;
use web_body::{Poll, Step};

/// A future whose value comes after a number of polls that return `Pending`.
#[derive(Debug, Drop)]
pub struct Delayed<T> {
    left: u64,
    value: Option<T>,
}

impl<T> Model for Delayed<T> {
    ghost use Rattle.demo_arguments.specs.DelayedValue.{DelayedView};

    ghost Value = { DelayedView T };

    ghost view = { λ f. record { left = f.left; value = f.value } };
}

impl<T> Delayed<T> {
    /// The value after `left` polls that return `Pending`.
    pub fn new(left: u64, value: T) -> Delayed<T>
        ensures { result ≡ record { left = left; value = Some value } }
    {
        Delayed {
            left,
            value: Some(value),
        }
    }
}

/// A poll needs no memory, so it never returns `NoMemory`.
impl<T: Drop> Poll for Delayed<T> {
    ghost use Rattle.std.specs.Prelude.{◌≡◌, false, is_none};
    ghost use Rattle.web_body.specs.PollSteps.{Ends, IfReady, Shifts};
    ghost use Rattle.demo_arguments.specs.DelayedValue.{CountsDown, GivesDelayed, delayed_some};

    type Output = T;

    ghost is_finished = { λ f. is_none f.value };

    ghost gives = { λ f n x. GivesDelayed f n x };

    ghost some = { λ f h. delayed_some f.left f.value h };

    fn finished(&self) -> bool {
        self.value.is_none()
    }

    fn poll(&mut self, _alloc: Global) -> Step<T>
        requires unfinished { is_none self.old.value ≡ false }
        ensures ends { Ends result (is_none self.new.value) }
        ensures value { IfReady result (λ x. GivesDelayed self.old 0 x) }
        ensures shift { Shifts result
            (λ n x. GivesDelayed self.old n x) (λ n x. GivesDelayed self.new n x) }
        ensures counts { CountsDown self.old result self.new }
    {
        if self.left > 0 {
            self.left -= 1;
            return Step::Pending;
        }
        match self.value.take() {
            Some(value) => Step::Ready(value),
            None => unreachable!(),
        }
    }
}
