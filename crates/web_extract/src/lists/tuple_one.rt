//! Lists of one argument.
ghost use Rattle.std.specs.Prelude.{◌≡◌};
ghost use Rattle.web_extract.specs.ConvertedFutures.{ConvertsStep};

use crate::from_request::FromRequest;
use std::alloc::Global;
use web_body::{Payload, Poll, Step};
use web_reply::Error;
use web_request::{App, HttpRequest, NoMemory};

/// The future of a list of one argument.
#[derive(Drop)]
pub struct TupleFromRequest1<P: App, A: FromRequest<P>> {
    first: A::Future,
}

/// The step of the argument's future as the step of a list.
fn list_step<T, E: Into<Error>>(step: Step<Result<T, E>>) -> Step<Result<(T,), Error>>
    ensures { ConvertsStep (λ v w. w ≡ record { 0 = v }) E.converts step result }
{
    match step {
        Step::Pending => Step::Pending,
        Step::Ready(Ok(value)) => Step::Ready(Ok((value,))),
        Step::Ready(Err(refusal)) => Step::Ready(Err(refusal.into())),
        Step::NoMemory => Step::NoMemory,
    }
}

impl<P: App, A: FromRequest<P>> Poll for TupleFromRequest1<P, A> {
    ghost use Rattle.web_extract.specs.ArgumentLists.{Joins1, ConvertsRefusal};
    ghost use Rattle.web_extract.specs.SomeAnswer.{joins1_some, turned_some};

    type Output = Result<(A,), Error>;

    ghost is_finished = { λ f. A.Future.is_finished f.first };

    ghost gives = { λ f n x. Joins1
        (ConvertsRefusal A.Error.converts (A.Future.gives f.first)) n x };

    ghost needs_no_memory = { λ f. A.Future.needs_no_memory f.first };

    ghost some = { λ f h. joins1_some (ConvertsRefusal A.Error.converts (A.Future.gives f.first))
        (turned_some A.Error.converts A.converted (A.Future.gives f.first)
        (A.Future.some f.first h)) };

    fn finished(&self) -> bool {
        self.first.finished()
    }

    fn poll(&mut self, alloc: Global) -> Step<Result<(A,), Error>> {
        list_step(self.first.poll(alloc))
    }
}

/// A list of one argument, which gets the payload as it is.
impl<P: App, A: FromRequest<P>> FromRequest<P> for (A,) {
    ghost use Rattle.web_extract.specs.ListMeanings.{Member, Means1};
    ghost use Rattle.web_extract.specs.SomeAnswer.{means1_some, member_some, itself};

    type Error = Error;

    type Future = TupleFromRequest1<P, A>;

    ghost means = { λ q m rest n x. Means1 (Member A.Error.converts (A.means q)) m rest n x };

    ghost needs_no_memory = { λ q. A.needs_no_memory q };

    ghost leaves = { λ q. A.leaves q };

    ghost some = { λ q m. means1_some (Member A.Error.converts (A.means q))
        (member_some A.Error.converts A.converted (A.means q) (A.some q)) m };

    ghost converted = { itself };

    fn from_request(
        alloc: Global,
        req: &HttpRequest<P>,
        payload: &mut Payload<P::Source>,
    ) -> Result<TupleFromRequest1<P, A>, NoMemory> {
        Ok(TupleFromRequest1 {
            first: A::from_request(alloc, req, payload)?,
        })
    }
}
