//! A future behind a pointer.
ghost use Rattle.std.specs.Prelude.{◌≡◌, IfOk, false};
ghost use Rattle.web_body.specs.PollSteps.{Ends, IfReady, NeverNoMemory, Shifts};
ghost use Rattle.demo_picked.specs.BoxedFutures.{GivesOrAll, GivesWithin};

use std::alloc::Global;
use web_body::{Poll, Step};
use web_request::NoMemory;

/// A future that stands in memory of its own, so that what holds it stays small.
#[derive(Drop)]
pub struct BoxedFuture<F> {
    future: Box<F>,
}

impl<F: Poll> BoxedFuture<F> {
    /// Puts a future into memory of its own. It gives what it gave.
    pub fn new(alloc: Global, future: F) -> Result<BoxedFuture<F>, NoMemory>
        requires unfinished { F.is_finished future ≡ false }
        ensures fresh { IfOk result (λ boxed. F.is_finished boxed.future.value ≡ false) }
        ensures gives { IfOk result (λ boxed.
            GivesWithin (GivesOrAll (λ n x. F.gives boxed.future.value n x))
            (λ n x. F.gives future n x)) }
    {
        Ok(BoxedFuture {
            future: Box::new(alloc, future)?,
        })
    }
}

impl<F: Poll> BoxedFuture<F> {
    /// Whether the future returned `Ready` or `NoMemory`.
    pub fn finished(&self) -> bool
        ensures { result ≡ F.is_finished self.now.future.value }
    {
        self.future.finished()
    }

    /// Polls the future.
    pub fn poll(&mut self, alloc: Global) -> Step<F::Output>
        requires unfinished { F.is_finished self.old.future.value ≡ false }
        ensures ends { Ends result (F.is_finished self.new.future.value) }
        ensures value { IfReady result (λ x.
            GivesOrAll (λ n y. F.gives self.old.future.value n y) 0 x) }
        ensures shift { Shifts result
            (GivesOrAll (λ n x. F.gives self.old.future.value n x))
            (GivesOrAll (λ n x. F.gives self.new.future.value n x)) }
        ensures memory { F.needs_no_memory self.old.future.value → NeverNoMemory result }
    {
        self.future.poll(alloc)
    }
}
