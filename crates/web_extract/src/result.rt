//! Arguments whose refusal is passed to the handler.
use crate::from_request::FromRequest;
use crate::into_some::IntoSome;
use crate::never::Never;
use std::alloc::Global;
use std::marker::{Model, PhantomData};
use web_body::{Payload, Poll, Step};
use web_request::{App, HttpRequest, NoMemory};

/// The future of a `Result` argument.
#[derive(Drop)]
pub struct FromRequestResFuture<Fut, E> {
    fut: Fut,
    error: PhantomData<E>,
}

impl<Fut, E> Model for FromRequestResFuture<Fut, E> {
    ghost Value = { Fut };

    ghost view = { λ f. f.fut };
}

impl<T: Drop, Ei: IntoSome<E> + Drop, E: Drop, Fut: Poll<Output = Result<T, Ei>>> Poll
    for FromRequestResFuture<Fut, E> {
    ghost use Rattle.web_extract.specs.ResultArgument.{GivesResult, result_some};

    type Output = Result<Result<T, E>, Never>;

    ghost is_finished = { λ f. Fut.is_finished f };

    ghost gives = { λ f n x. GivesResult Ei.converts (Fut.gives f) n x };

    ghost needs_no_memory = { λ f. Fut.needs_no_memory f };

    ghost some = { λ f h. result_some Ei.converts Ei.converted (Fut.gives f) (Fut.some f h) };

    fn finished(&self) -> bool {
        self.fut.finished()
    }

    fn poll(&mut self, alloc: Global) -> Step<Result<Result<T, E>, Never>> {
        match self.fut.poll(alloc) {
            Step::Pending => Step::Pending,
            Step::Ready(Ok(value)) => Step::Ready(Ok(Ok(value))),
            Step::Ready(Err(e)) => Step::Ready(Ok(Err(e.into()))),
            Step::NoMemory => Step::NoMemory,
        }
    }
}

/// `Ok` of the argument, or `Err` of what its refusal converts into. It has the delay of the
/// argument, and leaves as much of the payload.
impl<A: App, T: FromRequest<A>, E: Drop> FromRequest<A> for Result<T, E>
where
    T::Error: IntoSome<E>,
{
    ghost use Rattle.web_extract.specs.ResultArgument.{GivesResult, means_result_some};
    ghost use Rattle.web_extract.specs.Never.{never_converted};

    type Error = Never;

    type Future = FromRequestResFuture<T::Future, E>;

    ghost means = { λ q m rest n x.
        GivesResult ⟦<T::Error as Into<E>>⟧.converts (T.means q m rest) n x };

    ghost needs_no_memory = { λ q. T.needs_no_memory q };

    ghost leaves = { λ q. T.leaves q };

    ghost some = { λ q m. means_result_some ⟦<T::Error as Into<E>>⟧.converts
        T.Error.IntoSome.converted (T.means q m) (T.some q m) };

    ghost converted = { never_converted };

    fn from_request(
        alloc: Global,
        req: &HttpRequest<A>,
        payload: &mut Payload<A::Source>,
    ) -> Result<FromRequestResFuture<T::Future, E>, NoMemory> {
        match T::from_request(alloc, req, payload) {
            Ok(fut) => Ok(FromRequestResFuture {
                fut,
                error: PhantomData,
            }),
            Err(e) => Err(e),
        }
    }
}
