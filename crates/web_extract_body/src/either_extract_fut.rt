//! The future of one of two arguments.
ghost use Rattle.web_extract_body.specs.EitherStates.{Keeps};

use crate::either::{Either, EitherExtractError, EitherExtractState};
use crate::either_steps::{Next, next_state};
use std::alloc::Global;
use std::mem;
use web_body::{Poll, Step};
use web_extract::{BytesExtractFut, FromRequest};
use web_request::{App, HttpRequest};

/// Keeps the state that is waited on, or returns the result.
fn keep<S: Drop, X>(place: &mut S, next: Next<S, X>) -> Step<X>
    ensures { Keeps place.old next place.new result }
{
    match next {
        Next::Waits(state) => {
            *place = state;
            Step::Pending
        }
        Next::Comes(result) => Step::Ready(result),
        Next::NoMemory => Step::NoMemory,
    }
}

/// The future of one of two arguments. It keeps a duplicate of the request.
#[derive(Drop)]
pub struct EitherExtractFut<A: App, L: FromRequest<A>, R: FromRequest<A>> {
    pub(crate) request: HttpRequest<A>,
    pub(crate) state: EitherExtractState<
        BytesExtractFut<A::Source>,
        L::Future,
        R::Future,
        L::Error,
    >,
}

impl<A: App, L: FromRequest<A>, R: FromRequest<A>> Poll for EitherExtractFut<A, L, R> {
    ghost use Rattle.web_extract.specs.BodyFutures.{body_finished, bytes_gives, bytes_gives_some};
    ghost use Rattle.web_extract_body.specs.EitherStates.{state_finished, state_gives, state_some};

    type Output = Result<Either<L, R>, EitherExtractError<L::Error, R::Error>>;

    ghost is_finished = { λ f. state_finished (λ b. body_finished b)
        L.Future.is_finished R.Future.is_finished f.state };

    ghost gives = { λ f n x. state_gives (λ b k y. bytes_gives A.Source.feed b k y)
        L.Future.gives R.Future.gives
        (L.means f.request.request) (R.means f.request.request) f.state n x };

    ghost some = { λ f h. state_some (λ b. body_finished b)
        L.Future.is_finished R.Future.is_finished
        (λ b k y. bytes_gives A.Source.feed b k y) L.Future.gives R.Future.gives
        (L.means f.request.request) (R.means f.request.request)
        (λ b g. bytes_gives_some A.Source.feed b g) L.Future.some R.Future.some
        (L.some f.request.request) (R.some f.request.request) f.state h };

    fn finished(&self) -> bool {
        match &self.state {
            EitherExtractState::Bytes(bytes) => bytes.finished(),
            EitherExtractState::Left(left, _) => left.finished(),
            EitherExtractState::Right(right, _) => right.finished(),
            EitherExtractState::Finished => true,
        }
    }

    fn poll(
        &mut self,
        alloc: Global,
    ) -> Step<Result<Either<L, R>, EitherExtractError<L::Error, R::Error>>> {
        let state = mem::replace(&mut self.state, EitherExtractState::Finished);
        let next = next_state::<A, L, R>(alloc, &self.request, state);
        keep(&mut self.state, next)
    }
}
