//! An argument under a limit of its own.
ghost use Rattle.std.specs.Prelude.{◌≡◌};
ghost use Rattle.web_extract.specs.CappedArguments.{WrapsStep};

use crate::body::with_cap::WithCap;
use crate::from_request::FromRequest;
use std::alloc::Global;
use std::marker::Model;
use web_body::{Payload, Poll, Step};
use web_request::{App, HttpRequest, NoMemory};

/// An argument whose body has at most `N` bytes, or fewer where the configured limit is lower.
///
/// That lesser limit is the one that the tests of the head know, and that a refusal names. Of two
/// arguments in one list it concerns the one that it is written round.
#[derive(Debug, Drop)]
pub struct Capped<T, const N: usize>(pub T);

impl<T, const N: usize> Capped<T, N> {
    /// The argument.
    pub fn into_inner(self) -> T
        ensures { result ≡ self.0 }
    {
        let Capped(value) = self;
        value
    }
}

/// The future of a `Capped` argument.
#[derive(Drop)]
pub struct CappedFut<Fut, const N: usize> {
    fut: Fut,
}

impl<Fut, const N: usize> Model for CappedFut<Fut, N> {
    ghost Value = { Fut };

    ghost view = { λ f. f.fut };
}

/// The step of a poll, with its value wrapped.
fn wrap_step<T, E, const N: usize>(step: Step<Result<T, E>>) -> Step<Result<Capped<T, N>, E>>
    ensures { WrapsStep step result }
{
    match step {
        Step::Pending => Step::Pending,
        Step::Ready(Ok(value)) => Step::Ready(Ok(Capped(value))),
        Step::Ready(Err(e)) => Step::Ready(Err(e)),
        Step::NoMemory => Step::NoMemory,
    }
}

impl<T: Drop, E: Drop, Fut: Poll<Output = Result<T, E>>, const N: usize> Poll
    for CappedFut<Fut, N> {
    ghost use Rattle.web_extract.specs.CappedArguments.{GivesCapped, capped_some};

    type Output = Result<Capped<T, N>, E>;

    ghost is_finished = { λ f. Fut.is_finished f };

    ghost gives = { λ f n x. GivesCapped (Fut.gives f) n x };

    ghost needs_no_memory = { λ f. Fut.needs_no_memory f };

    ghost some = { λ f h. capped_some (Fut.gives f) (Fut.some f h) };

    fn finished(&self) -> bool {
        self.fut.finished()
    }

    fn poll(&mut self, alloc: Global) -> Step<Result<Capped<T, N>, E>> {
        wrap_step(self.fut.poll(alloc))
    }
}

/// The argument under the lesser of the configured limit and `N` bytes.
impl<A: App, T: WithCap<A>, const N: usize> FromRequest<A> for Capped<T, N> {
    ghost use Rattle.web_extract.specs.CappedArguments.{GivesCapped, means_capped_some};

    type Error = T::Error;

    type Future = CappedFut<T::Future, N>;

    ghost means = { λ q m rest n x. GivesCapped (T.means_capped N q m rest) n x };

    ghost needs_no_memory = { λ q. T.capped_needs_no_memory q };

    ghost some = { λ q m. means_capped_some (T.means_capped N q m) (T.some_capped N q m) };

    ghost converted = { T.converted };

    fn from_request(
        alloc: Global,
        req: &HttpRequest<A>,
        payload: &mut Payload<A::Source>,
    ) -> Result<CappedFut<T::Future, N>, NoMemory> {
        match T::from_request_capped(alloc, req, payload, N) {
            Ok(fut) => Ok(CappedFut { fut }),
            Err(e) => Err(e),
        }
    }
}
