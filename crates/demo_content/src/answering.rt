//! The future of the handler.
ghost use Rattle.std.specs.Prelude.{◌≡◌, Some};

use crate::answer::DemoOutput;
use demo_arguments::Delayed;
use std::alloc::Global;
use std::marker::Model;
use web_body::{Poll, Step};

/// The output of the handler, after as many polls as it waits.
#[derive(Drop)]
pub struct Answering {
    delayed: Delayed<DemoOutput>,
}

impl Model for Answering {
    ghost use Rattle.web_request.specs.Feed.{Feed};
    ghost use Rattle.demo_arguments.specs.DelayedValue.{DelayedView};
    ghost use Rattle.demo_content.specs.declared.answer.Answer.{Answer};

    ghost Value = { DelayedView (Answer Feed) };

    ghost view = { λ f. f.delayed };
}

impl Answering {
    /// The output after `wait` polls that return `Pending`.
    pub fn new(wait: u64, output: DemoOutput) -> Answering
        ensures { result ≡ record { left = wait; value = Some output } }
    {
        Answering {
            delayed: Delayed::new(wait, output),
        }
    }
}

/// A poll needs no memory, so it never returns `NoMemory`.
impl Poll for Answering {
    ghost use Rattle.std.specs.Prelude.{◌≡◌, false, is_none};
    ghost use Rattle.web_body.specs.PollSteps.{Ends, IfReady, Shifts};
    ghost use Rattle.demo_arguments.specs.DelayedValue.{CountsDown, GivesDelayed, delayed_some};

    type Output = DemoOutput;

    ghost is_finished = { λ f. is_none f.value };

    ghost gives = { λ f n x. GivesDelayed f n x };

    ghost some = { λ f h. delayed_some f.left f.value h };

    fn finished(&self) -> bool {
        self.delayed.finished()
    }

    fn poll(&mut self, alloc: Global) -> Step<DemoOutput>
        requires unfinished { is_none self.old.value ≡ false }
        ensures ends { Ends result (is_none self.new.value) }
        ensures value { IfReady result (λ x. GivesDelayed self.old 0 x) }
        ensures shift { Shifts result
            (λ n x. GivesDelayed self.old n x) (λ n x. GivesDelayed self.new n x) }
        ensures counts { CountsDown self.old result self.new }
    {
        self.delayed.poll(alloc)
    }
}
