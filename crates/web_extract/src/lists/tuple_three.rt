//! Lists of three arguments, over nested pairs.
ghost use Rattle.std.specs.Prelude.{◌≡◌};

use crate::from_request::FromRequest;
use crate::lists::place::Place;
use crate::lists::tuple_two::{TupleFromRequest2, both};
use std::alloc::Global;
use web_body::{Payload, Poll, Step};
use web_reply::Error;
use web_request::{App, HttpRequest, NoMemory};

/// The future of three arguments. Each poll polls those that are still to come, in their order. The
/// list is ready when all three are, also where some of them are refused.
#[derive(Drop)]
pub struct TupleFromRequest3<P: App, A: FromRequest<P>, B: FromRequest<P>, C: FromRequest<P>> {
    nested: TupleFromRequest2<P, A, (B, C)>,
}

impl<P: App, A: FromRequest<P>, B: FromRequest<P>, C: FromRequest<P>> Poll
    for TupleFromRequest3<P, A, B, C> {
    ghost use Rattle.web_extract.specs.ArgumentLists.{nested3};
    ghost use Rattle.web_extract.specs.SomeAnswer.{itself, nested3_some, places_some};

    type Output = Result<(A, B, C), Error>;

    ghost is_finished = { λ f. ⟦<TupleFromRequest2<P, A, (B, C)> as Poll>⟧.is_finished f.nested };

    ghost gives = { λ f n x.
        ⟦<TupleFromRequest2<P, A, (B, C)> as Poll>⟧.gives f.nested n (nested3 x) };

    ghost needs_no_memory = { λ f.
        ⟦<TupleFromRequest2<P, A, (B, C)> as Poll>⟧.needs_no_memory f.nested };

    ghost some = { λ f h. nested3_some
        (⟦<TupleFromRequest2<P, A, (B, C)> as Poll>⟧.gives f.nested)
        (places_some
        A.Error.converts A.converted A.Future.is_finished A.Future.gives A.Future.some
        ⟦<Error as Into<Error>>⟧.converts itself
        ⟦<TupleFromRequest2<P, B, C> as Poll>⟧.is_finished
        ⟦<TupleFromRequest2<P, B, C> as Poll>⟧.gives
        (λ rest k. places_some
        B.Error.converts B.converted B.Future.is_finished B.Future.gives B.Future.some
        C.Error.converts C.converted C.Future.is_finished C.Future.gives C.Future.some
        rest.first rest.second k)
        f.nested.first f.nested.second h) };

    fn finished(&self) -> bool {
        self.nested.finished()
    }

    fn poll(&mut self, alloc: Global) -> Step<Result<(A, B, C), Error>> {
        match self.nested.poll(alloc) {
            Step::Pending => Step::Pending,
            Step::Ready(Ok((a, rest))) => {
                let (b, c) = rest;
                Step::Ready(Ok((a, b, c)))
            }
            Step::Ready(Err(error)) => Step::Ready(Err(error)),
            Step::NoMemory => Step::NoMemory,
        }
    }
}

/// All three arguments. Each gets the payload as the one before left it.
impl<P: App, A: FromRequest<P>, B: FromRequest<P>, C: FromRequest<P>> FromRequest<P> for (A, B, C) {
    ghost use Rattle.web_extract.specs.ListMeanings.{Member, Means3};
    ghost use Rattle.web_extract.specs.SomeAnswer.{means3_some, member_some, itself};

    type Error = Error;

    type Future = TupleFromRequest3<P, A, B, C>;

    ghost means = { λ q m rest n x. Means3
        (Member A.Error.converts (A.means q))
        (Member B.Error.converts (B.means q))
        (Member C.Error.converts (C.means q)) m rest n x };

    ghost needs_no_memory = { λ q.
        A.needs_no_memory q × B.needs_no_memory q × C.needs_no_memory q };

    ghost leaves = { λ q. A.leaves q × B.leaves q × C.leaves q };

    ghost some = { λ q m. means3_some
        (Member A.Error.converts (A.means q))
        (Member B.Error.converts (B.means q))
        (Member C.Error.converts (C.means q))
        (member_some A.Error.converts A.converted (A.means q) (A.some q))
        (member_some B.Error.converts B.converted (B.means q) (B.some q))
        (member_some C.Error.converts C.converted (C.means q) (C.some q)) m };

    ghost converted = { itself };

    fn from_request(
        alloc: Global,
        req: &HttpRequest<P>,
        payload: &mut Payload<P::Source>,
    ) -> Result<TupleFromRequest3<P, A, B, C>, NoMemory> {
        let first = A::from_request(alloc, req, payload)?;
        let (second, third) = both::<P, B, C>(alloc, req, payload)?;
        let rest = TupleFromRequest2 {
            first: Place::Waiting(second),
            second: Place::Waiting(third),
        };
        Ok(TupleFromRequest3 {
            nested: TupleFromRequest2 {
                first: Place::Waiting(first),
                second: Place::Waiting(rest),
            },
        })
    }
}
