//! Optional arguments.
ghost use Rattle.std.specs.Prelude.{◌≡◌, ℕ};

use crate::from_request::FromRequest;
use crate::never::Never;
use std::alloc::Global;
use std::marker::Model;
use web_body::{Payload, Poll, Step};
use web_request::{App, HttpRequest, NoMemory};

/// The future of an `Option` argument.
#[derive(Drop)]
pub struct FromRequestOptFuture<Fut> {
    fut: Fut,
}

impl<Fut> Model for FromRequestOptFuture<Fut> {
    ghost Value = { Fut };

    ghost view = { λ f. f.fut };
}

impl<T: Drop, E: Drop, Fut: Poll<Output = Result<T, E>>> Poll for FromRequestOptFuture<Fut> {
    ghost use Rattle.web_extract.specs.OptionArgument.{GivesOption, option_some};

    type Output = Result<Option<T>, Never>;

    ghost is_finished = { λ f. Fut.is_finished f };

    ghost gives = { λ f n x. GivesOption (Fut.gives f) n x };

    ghost needs_no_memory = { λ f. Fut.needs_no_memory f };

    ghost some = { λ f h. option_some (Fut.gives f) (Fut.some f h) };

    fn finished(&self) -> bool {
        self.fut.finished()
    }

    fn poll(&mut self, alloc: Global) -> Step<Result<Option<T>, Never>> {
        match self.fut.poll(alloc) {
            Step::Pending => Step::Pending,
            Step::Ready(Ok(value)) => Step::Ready(Ok(Some(value))),
            Step::Ready(Err(_)) => Step::Ready(Ok(None)),
            Step::NoMemory => Step::NoMemory,
        }
    }
}

/// `Some` of the argument, or `None` where it is refused. It has the delay of the argument, and
/// leaves as much of the payload.
impl<A: App, T: FromRequest<A>> FromRequest<A> for Option<T> {
    ghost use Rattle.web_extract.specs.OptionArgument.{GivesOption, means_option_some};
    ghost use Rattle.web_extract.specs.Never.{never_converted};

    type Error = Never;

    type Future = FromRequestOptFuture<T::Future>;

    ghost means = { λ q m rest n x. GivesOption (T.means q m rest) n x };

    ghost needs_no_memory = { λ q. T.needs_no_memory q };

    ghost leaves = { λ q. T.leaves q };

    ghost some = { λ q m. means_option_some (T.means q m) (T.some q m) };

    ghost converted = { never_converted };

    fn from_request(
        alloc: Global,
        req: &HttpRequest<A>,
        payload: &mut Payload<A::Source>,
    ) -> Result<FromRequestOptFuture<T::Future>, NoMemory> {
        match T::from_request(alloc, req, payload) {
            Ok(fut) => Ok(FromRequestOptFuture { fut }),
            Err(e) => Err(e),
        }
    }
}
