//! The future of what is picked of an argument.
ghost use Rattle.std.specs.Prelude.{◌≡◌, ◌⊎◌, ℕ, IfOk, IsOk, Result, Some, false, is_none};
ghost use Rattle.web_body.specs.Payload.{payload_feed};
ghost use Rattle.web_extract.specs.ConvertedFutures.{ConvertsStep, GivesConverted};
ghost use Rattle.web_extract.specs.Extracts.{Extracts};
ghost use Rattle.web_extract.specs.ReadyFuture.{GivesHeld};
ghost use Rattle.web_reply.specs.Replies.{Fault};
ghost use Rattle.demo_picked.specs.Picking.{Picks};

use crate::picked::Picked;
use demo_app::Demo;
use std::alloc::Global;
use std::marker::Model;
use web_body::{Marks, Payload, Poll, Step};
use web_extract::{FromRequest, Ready};
use web_reply::Error;
use web_request::{HttpRequest, NoMemory};

/// An argument, or a list of several, that a segment asks for.
pub trait IntoPicked: Sized {
    ghost use Rattle.demo_picked.specs.declared.picked.Picked.{Picked};

    /// What is picked of this value.
    ghost picked: { Self → Picked };

    /// What is picked of this value.
    fn into_picked(self) -> Picked
        ensures { result ≡ picked self };
}

/// The future of what is picked of the argument `T`. It takes as many polls as the future of `T`.
#[derive(Drop)]
pub struct FutureOf<T: FromRequest<Demo>> {
    future: T::Future,
}

impl<T: FromRequest<Demo>> Model for FutureOf<T> {
    ghost Value = { T.Future };

    ghost view = { λ f. f.future };
}

/// The step of a poll, with its value or its refusal as what is picked.
fn picked_step<T: IntoPicked, E: Into<Error>>(
    step: Step<Result<T, E>>,
) -> Step<Result<Picked, Error>>
    ensures { ConvertsStep (λ v w. w ≡ T.picked v) E.converts step result }
{
    match step {
        Step::Pending => Step::Pending,
        Step::Ready(Ok(value)) => Step::Ready(Ok(value.into_picked())),
        Step::Ready(Err(e)) => Step::Ready(Err(e.into())),
        Step::NoMemory => Step::NoMemory,
    }
}

impl<T: FromRequest<Demo> + IntoPicked> Poll for FutureOf<T> {
    ghost use Rattle.web_extract.specs.ConvertedFutures.{GivesConverted, converted_some};
    ghost use Rattle.web_extract.specs.ConvertedFutures.{converts_by};

    type Output = Result<Picked, Error>;

    ghost is_finished = { λ f. T.Future.is_finished f };

    ghost gives = { λ f n x. GivesConverted (λ v w. w ≡ T.picked v) T.Error.converts
        (T.Future.gives f) n x };

    ghost needs_no_memory = { λ f. T.Future.needs_no_memory f };

    ghost some = { λ f h. converted_some (λ v w. w ≡ T.picked v) T.Error.converts
        (converts_by T.picked) T.converted (T.Future.gives f) (T.Future.some f h) };

    fn finished(&self) -> bool {
        self.future.finished()
    }

    fn poll(&mut self, alloc: Global) -> Step<Result<Picked, Error>> {
        picked_step(self.future.poll(alloc))
    }
}

/// Begins with an argument. See [`FromRequest::from_request`].
pub(crate) fn begin<T: FromRequest<Demo> + IntoPicked>(
    alloc: Global,
    req: &HttpRequest<Demo>,
    payload: &mut Payload<Marks>,
) -> Result<FutureOf<T>, NoMemory>
    ensures fresh { IfOk result (λ f. T.Future.is_finished f ≡ false) }
    ensures extracts { IfOk result (λ f. Extracts
        (λ m rest n x. Picks T.picked T.Error.converts (T.means req.now.request) m rest n x)
        (λ n x. ⟦<FutureOf<T> as Poll>⟧.gives f n x)
        (payload_feed (λ feed. feed) payload.old).marks
        (payload_feed (λ feed. feed) payload.new).marks) }
    ensures payload { (payload.new ≡ payload.old) ⊎ (payload.new ≡ Payload.None) }
    ensures memory { T.needs_no_memory req.now.request → IsOk result }
{
    match T::from_request(alloc, req, payload) {
        Ok(future) => Ok(FutureOf { future }),
        Err(e) => Err(e),
    }
}

/// The value of a future that was not polled.
pub(crate) fn value_of<X: Drop>(alloc: Global, mut future: Ready<X>) -> X
    requires unfinished { is_none future ≡ false }
    ensures { future ≡ Some result }
{
    match future.poll(alloc) {
        Step::Ready(value) => value,
        Step::Pending | Step::NoMemory => unreachable!(),
    }
}

/// What is picked of an argument that is there, or its refusal.
pub(crate) fn picked_now<T: IntoPicked + Drop, E: Into<Error> + Drop>(
    alloc: Global,
    future: Ready<Result<T, E>>,
) -> Ready<Result<Picked, Error>>
    requires unfinished { is_none future ≡ false }
    ensures fresh { is_none result ≡ false }
    ensures gives { (n : ℕ) (x : Result Picked Fault) → GivesHeld result n x
        → GivesConverted (λ v w. w ≡ T.picked v) E.converts (GivesHeld future) n x }
{
    match value_of(alloc, future) {
        Ok(value) => Ready::new(Ok(value.into_picked())),
        Err(e) => Ready::new(Err(e.into())),
    }
}
