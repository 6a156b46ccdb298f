//! A future that is not finished at its first poll, and a handler that returns it.
ghost use Rattle.std.specs.Prelude.{◌≡◌};

use std::alloc::Global;
use std::mem;
use web_body::{Poll, Step};
use web_request::NoMemory;
use web_worker::Handler;

/// A value that is there at the second poll.
#[derive(Drop)]
pub enum SecondPoll<T> {
    /// It was not polled yet.
    New(T),
    /// It returned `Pending` once.
    Stalled(T),
    /// Its value was returned.
    Finished,
}

impl<T: Drop> Poll for SecondPoll<T> {
    ghost use Rattle.example_handlers.specs.SecondPoll.{second_finished, second_gives, second_some};

    type Output = T;

    ghost is_finished = { λ f. second_finished f };

    ghost gives = { λ f n x. second_gives f n x };

    ghost some = { λ f h. second_some f h };

    fn finished(&self) -> bool {
        matches!(self, SecondPoll::Finished)
    }

    fn poll(&mut self, _alloc: Global) -> Step<T> {
        match mem::replace(self, SecondPoll::Finished) {
            SecondPoll::New(value) => {
                *self = SecondPoll::Stalled(value);
                Step::Pending
            }
            SecondPoll::Stalled(value) => Step::Ready(value),
            SecondPoll::Finished => unreachable!(),
        }
    }
}

/// Responds with `hello` at the second poll. It takes no argument, and keeps no calls.
#[derive(Drop)]
pub struct Greeter;

impl Handler<()> for Greeter {
    ghost use Rattle.std.specs.Prelude.{None, codes};

    type Output = &'static str;

    type Future = SecondPoll<&'static str>;

    ghost answers = { λ h args n y. (n ≡ 1) × (y.now ≡ codes "hello") };

    ghost calls = { λ h. None };

    fn call(&mut self, _alloc: Global, _args: ()) -> Result<SecondPoll<&'static str>, NoMemory> {
        Ok(SecondPoll::New("hello"))
    }
}
