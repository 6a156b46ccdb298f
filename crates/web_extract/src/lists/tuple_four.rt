//! Lists of four arguments, over nested pairs.
ghost use Rattle.std.specs.Prelude.{◌≡◌};

use crate::from_request::FromRequest;
use crate::lists::place::Place;
use crate::lists::tuple_two::{TupleFromRequest2, both};
use std::alloc::Global;
use web_body::{Payload, Poll, Step};
use web_reply::Error;
use web_request::{App, HttpRequest, NoMemory};

/// The future of four arguments. Each poll polls those that are still to come, in their order. The
/// list is ready when all four are, also where some of them are refused.
#[derive(Drop)]
pub struct TupleFromRequest4<
    P: App,
    A: FromRequest<P>,
    B: FromRequest<P>,
    C: FromRequest<P>,
    D: FromRequest<P>,
> {
    nested: TupleFromRequest2<P, A, (B, (C, D))>,
}

impl<P: App, A: FromRequest<P>, B: FromRequest<P>, C: FromRequest<P>, D: FromRequest<P>> Poll
    for TupleFromRequest4<P, A, B, C, D> {
    ghost use Rattle.web_extract.specs.ArgumentLists.{nested4};
    ghost use Rattle.web_extract.specs.SomeAnswer.{itself, nested4_some, places_some};

    type Output = Result<(A, B, C, D), Error>;

    ghost is_finished = { λ f.
        ⟦<TupleFromRequest2<P, A, (B, (C, D))> as Poll>⟧.is_finished f.nested };

    ghost gives = { λ f n x.
        ⟦<TupleFromRequest2<P, A, (B, (C, D))> as Poll>⟧.gives f.nested n (nested4 x) };

    ghost needs_no_memory = { λ f.
        ⟦<TupleFromRequest2<P, A, (B, (C, D))> as Poll>⟧.needs_no_memory f.nested };

    ghost some = { λ f h. nested4_some
        (⟦<TupleFromRequest2<P, A, (B, (C, D))> as Poll>⟧.gives f.nested)
        (places_some
        A.Error.converts A.converted A.Future.is_finished A.Future.gives A.Future.some
        ⟦<Error as Into<Error>>⟧.converts itself
        ⟦<TupleFromRequest2<P, B, (C, D)> as Poll>⟧.is_finished
        ⟦<TupleFromRequest2<P, B, (C, D)> as Poll>⟧.gives
        (λ rest k. places_some
        B.Error.converts B.converted B.Future.is_finished B.Future.gives B.Future.some
        ⟦<Error as Into<Error>>⟧.converts itself
        ⟦<TupleFromRequest2<P, C, D> as Poll>⟧.is_finished
        ⟦<TupleFromRequest2<P, C, D> as Poll>⟧.gives
        (λ last j. places_some
        C.Error.converts C.converted C.Future.is_finished C.Future.gives C.Future.some
        D.Error.converts D.converted D.Future.is_finished D.Future.gives D.Future.some
        last.first last.second j)
        rest.first rest.second k)
        f.nested.first f.nested.second h) };

    fn finished(&self) -> bool {
        self.nested.finished()
    }

    fn poll(&mut self, alloc: Global) -> Step<Result<(A, B, C, D), Error>> {
        match self.nested.poll(alloc) {
            Step::Pending => Step::Pending,
            Step::Ready(Ok((a, rest))) => {
                let (b, last) = rest;
                let (c, d) = last;
                Step::Ready(Ok((a, b, c, d)))
            }
            Step::Ready(Err(error)) => Step::Ready(Err(error)),
            Step::NoMemory => Step::NoMemory,
        }
    }
}

/// All four arguments. Each gets the payload as the one before left it.
impl<
    P: App,
    A: FromRequest<P>,
    B: FromRequest<P>,
    C: FromRequest<P>,
    D: FromRequest<P>,
> FromRequest<P> for (A, B, C, D) {
    ghost use Rattle.web_extract.specs.ListMeanings.{Member, Means4};
    ghost use Rattle.web_extract.specs.SomeAnswer.{means4_some, member_some, itself};

    type Error = Error;

    type Future = TupleFromRequest4<P, A, B, C, D>;

    ghost means = { λ q m rest n x. Means4
        (Member A.Error.converts (A.means q))
        (Member B.Error.converts (B.means q))
        (Member C.Error.converts (C.means q))
        (Member D.Error.converts (D.means q)) m rest n x };

    ghost needs_no_memory = { λ q.
        A.needs_no_memory q × B.needs_no_memory q × C.needs_no_memory q × D.needs_no_memory q };

    ghost leaves = { λ q. A.leaves q × B.leaves q × C.leaves q × D.leaves q };

    ghost some = { λ q m. means4_some
        (Member A.Error.converts (A.means q))
        (Member B.Error.converts (B.means q))
        (Member C.Error.converts (C.means q))
        (Member D.Error.converts (D.means q))
        (member_some A.Error.converts A.converted (A.means q) (A.some q))
        (member_some B.Error.converts B.converted (B.means q) (B.some q))
        (member_some C.Error.converts C.converted (C.means q) (C.some q))
        (member_some D.Error.converts D.converted (D.means q) (D.some q)) m };

    ghost converted = { itself };

    fn from_request(
        alloc: Global,
        req: &HttpRequest<P>,
        payload: &mut Payload<P::Source>,
    ) -> Result<TupleFromRequest4<P, A, B, C, D>, NoMemory> {
        let (first, second) = both::<P, A, B>(alloc, req, payload)?;
        let (third, fourth) = both::<P, C, D>(alloc, req, payload)?;
        let last = TupleFromRequest2 {
            first: Place::Waiting(third),
            second: Place::Waiting(fourth),
        };
        let rest = TupleFromRequest2 {
            first: Place::Waiting(second),
            second: Place::Waiting(last),
        };
        Ok(TupleFromRequest4 {
            nested: TupleFromRequest2 {
                first: Place::Waiting(first),
                second: Place::Waiting(rest),
            },
        })
    }
}
