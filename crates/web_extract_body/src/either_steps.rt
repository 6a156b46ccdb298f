//! The steps of the future of one of two arguments.
ghost use Rattle.std.specs.Prelude.{◌≡◌, false, Ok, Err, IfOk};
ghost use Rattle.web_request.specs.Body.{whole};
ghost use Rattle.web_extract.specs.BodyFutures.{body_finished, bytes_gives};
ghost use Rattle.web_extract_body.specs.EitherArgument.{On, AfterLeft, AfterBytes};
ghost use Rattle.web_extract_body.specs.EitherStates.{GivesOn, Proceeds, state_finished};
ghost use Rattle.web_extract_body.specs.EitherStates.{state_gives};

use crate::either::{Either, EitherExtractError, EitherExtractState};
use bytes::Bytes;
use std::alloc::Global;
use web_body::{Payload, Poll, Step};
use web_extract::{BytesExtractFut, FromRequest};
use web_request::{App, HttpRequest, NoMemory};

/// What a poll leads to: a state that waits on, or the result.
#[derive(Drop)]
pub enum Next<S, X> {
    Waits(S),
    Comes(X),
    NoMemory,
}

type State<A, L, R> = EitherExtractState<
    BytesExtractFut<<A as App>::Source>,
    <L as FromRequest<A>>::Future,
    <R as FromRequest<A>>::Future,
    <L as FromRequest<A>>::Error,
>;

type Outcome<A, L, R> = Result<
    Either<L, R>,
    EitherExtractError<<L as FromRequest<A>>::Error, <R as FromRequest<A>>::Error>,
>;

/// Polls a future once, and keeps it where it waits on.
fn poll_once<F: Poll>(alloc: Global, future: F) -> Next<F, F::Output>
    requires { F.is_finished future ≡ false }
    ensures { Proceeds F.is_finished F.gives (F.gives future) result }
{
    let mut future = future;
    match future.poll(alloc) {
        Step::Pending => Next::Waits(future),
        Step::Ready(result) => Next::Comes(result),
        Step::NoMemory => Next::NoMemory,
    }
}

/// Begins an argument of a whole body.
fn begin<A: App, T: FromRequest<A>>(
    alloc: Global,
    req: &HttpRequest<A>,
    body: Bytes,
) -> Result<T::Future, NoMemory>
    ensures fresh { IfOk result (λ f. T.Future.is_finished f ≡ false) }
    ensures on { IfOk result (λ f.
        GivesOn (T.means req.now.request) (whole body) (T.Future.gives f)) }
{
    let mut payload = Payload::Whole(body);
    T::from_request(alloc, req, &mut payload)
}

/// Goes on with the right argument.
fn poll_right<A: App, L: FromRequest<A>, R: FromRequest<A>>(
    alloc: Global,
    req: &HttpRequest<A>,
    right: R::Future,
    refusal: L::Error,
) -> Next<State<A, L, R>, Outcome<A, L, R>>
    requires { R.Future.is_finished right ≡ false }
    ensures { Proceeds
        (state_finished (λ b. body_finished b) L.Future.is_finished R.Future.is_finished)
        (state_gives (λ b k y. bytes_gives A.Source.feed b k y) L.Future.gives R.Future.gives
        (L.means req.now.request) (R.means req.now.request))
        (state_gives (λ b k y. bytes_gives A.Source.feed b k y) L.Future.gives R.Future.gives
        (L.means req.now.request) (R.means req.now.request)
        (EitherExtractState.Right right refusal))
        result }
{
    match poll_once(alloc, right) {
        Next::Waits(right) => Next::Waits(EitherExtractState::Right(right, refusal)),
        Next::Comes(Ok(value)) => Next::Comes(Ok(Either::Right(value))),
        Next::Comes(Err(e)) => Next::Comes(Err(EitherExtractError::Extract(refusal, e))),
        Next::NoMemory => Next::NoMemory,
    }
}

/// Begins the right argument, on the whole body.
fn begin_right<A: App, L: FromRequest<A>, R: FromRequest<A>>(
    alloc: Global,
    req: &HttpRequest<A>,
    body: Bytes,
    refusal: L::Error,
) -> Next<State<A, L, R>, Outcome<A, L, R>>
    ensures { Proceeds
        (state_finished (λ b. body_finished b) L.Future.is_finished R.Future.is_finished)
        (state_gives (λ b k y. bytes_gives A.Source.feed b k y) L.Future.gives R.Future.gives
        (L.means req.now.request) (R.means req.now.request))
        (AfterLeft (On (R.means req.now.request) (whole body)) (Err refusal))
        result }
{
    match begin::<A, R>(alloc, req, body) {
        Ok(right) => poll_right::<A, L, R>(alloc, req, right, refusal),
        Err(_) => Next::NoMemory,
    }
}

/// Goes on with the left argument, and where it refuses with the right one.
fn poll_left<A: App, L: FromRequest<A>, R: FromRequest<A>>(
    alloc: Global,
    req: &HttpRequest<A>,
    left: L::Future,
    body: Bytes,
) -> Next<State<A, L, R>, Outcome<A, L, R>>
    requires { L.Future.is_finished left ≡ false }
    ensures { Proceeds
        (state_finished (λ b. body_finished b) L.Future.is_finished R.Future.is_finished)
        (state_gives (λ b k y. bytes_gives A.Source.feed b k y) L.Future.gives R.Future.gives
        (L.means req.now.request) (R.means req.now.request))
        (state_gives (λ b k y. bytes_gives A.Source.feed b k y) L.Future.gives R.Future.gives
        (L.means req.now.request) (R.means req.now.request) (EitherExtractState.Left left body))
        result }
{
    match poll_once(alloc, left) {
        Next::Waits(left) => Next::Waits(EitherExtractState::Left(left, body)),
        Next::Comes(Ok(value)) => Next::Comes(Ok(Either::Left(value))),
        Next::Comes(Err(e)) => begin_right::<A, L, R>(alloc, req, body, e),
        Next::NoMemory => Next::NoMemory,
    }
}

/// Begins the left argument, on the whole body, which is kept for the right one.
fn begin_left<A: App, L: FromRequest<A>, R: FromRequest<A>>(
    alloc: Global,
    req: &HttpRequest<A>,
    body: Bytes,
) -> Next<State<A, L, R>, Outcome<A, L, R>>
    ensures { Proceeds
        (state_finished (λ b. body_finished b) L.Future.is_finished R.Future.is_finished)
        (state_gives (λ b k y. bytes_gives A.Source.feed b k y) L.Future.gives R.Future.gives
        (L.means req.now.request) (R.means req.now.request))
        (AfterBytes (L.means req.now.request) (R.means req.now.request) (Ok body))
        result }
{
    let Ok(lent) = body.clone() else {
        return Next::NoMemory;
    };
    match begin::<A, L>(alloc, req, lent) {
        Ok(left) => poll_left::<A, L, R>(alloc, req, left, body),
        Err(_) => Next::NoMemory,
    }
}

/// Goes on with the body.
fn poll_bytes<A: App, L: FromRequest<A>, R: FromRequest<A>>(
    alloc: Global,
    req: &HttpRequest<A>,
    bytes: BytesExtractFut<A::Source>,
) -> Next<State<A, L, R>, Outcome<A, L, R>>
    requires { body_finished bytes ≡ false }
    ensures { Proceeds
        (state_finished (λ b. body_finished b) L.Future.is_finished R.Future.is_finished)
        (state_gives (λ b k y. bytes_gives A.Source.feed b k y) L.Future.gives R.Future.gives
        (L.means req.now.request) (R.means req.now.request))
        (state_gives (λ b k y. bytes_gives A.Source.feed b k y) L.Future.gives R.Future.gives
        (L.means req.now.request) (R.means req.now.request) (EitherExtractState.Bytes bytes))
        result }
{
    match poll_once(alloc, bytes) {
        Next::Waits(bytes) => Next::Waits(EitherExtractState::Bytes(bytes)),
        Next::Comes(Ok(body)) => begin_left::<A, L, R>(alloc, req, body),
        Next::Comes(Err(e)) => Next::Comes(Err(EitherExtractError::Bytes(e))),
        Next::NoMemory => Next::NoMemory,
    }
}

/// Goes on with what is waited for.
pub(crate) fn next_state<A: App, L: FromRequest<A>, R: FromRequest<A>>(
    alloc: Global,
    req: &HttpRequest<A>,
    state: State<A, L, R>,
) -> Next<State<A, L, R>, Outcome<A, L, R>>
    requires { state_finished (λ b. body_finished b)
        L.Future.is_finished R.Future.is_finished state ≡ false }
    ensures { Proceeds
        (state_finished (λ b. body_finished b) L.Future.is_finished R.Future.is_finished)
        (state_gives (λ b k y. bytes_gives A.Source.feed b k y) L.Future.gives R.Future.gives
        (L.means req.now.request) (R.means req.now.request))
        (state_gives (λ b k y. bytes_gives A.Source.feed b k y) L.Future.gives R.Future.gives
        (L.means req.now.request) (R.means req.now.request) state)
        result }
{
    match state {
        EitherExtractState::Bytes(bytes) => poll_bytes::<A, L, R>(alloc, req, bytes),
        EitherExtractState::Left(left, body) => poll_left::<A, L, R>(alloc, req, left, body),
        EitherExtractState::Right(right, e) => poll_right::<A, L, R>(alloc, req, right, e),
        EitherExtractState::Finished => unreachable!(),
    }
}
