//! Lists of two arguments.
ghost use Rattle.std.specs.Prelude.{◌≡◌, ◌⊎◌, ◌||◌, ◌∷◌, [], IsOk, IfOk, Some, false};
ghost use Rattle.web_body.specs.Payload.{payload_feed};
ghost use Rattle.web_body.specs.PollSteps.{IfReady, IsPending, NeverNoMemory};
ghost use Rattle.web_reply.specs.JoinedErrors.{join};
ghost use Rattle.web_extract.specs.CollectedResults.{IsOneRefusal, collected2};
ghost use Rattle.web_extract.specs.Extracts.{ExtractsBoth, ExtractsUnread};
ghost use Rattle.web_extract.specs.Place.{PlaceNeedsNoMemory, place_finished, place_comes};

use crate::from_request::FromRequest;
use crate::lists::place::Place;
use std::alloc::Global;
use std::mem;
use web_body::{Payload, Poll, Step};
use web_reply::Error;
use web_request::{App, HttpRequest, NoMemory};

/// The future of two arguments. Each poll polls those that are still to come, in their order. The
/// list is ready when both are, also where one of them is refused.
#[derive(Drop)]
pub struct TupleFromRequest2<P: App, A: FromRequest<P>, B: FromRequest<P>> {
    pub(crate) first: Place<A::Future, A>,
    pub(crate) second: Place<B::Future, B>,
}

impl<P: App, A: FromRequest<P>, B: FromRequest<P>> Poll for TupleFromRequest2<P, A, B> {
    ghost use Rattle.web_extract.specs.ArgumentLists.{Joins2, NotBothRefuse};
    ghost use Rattle.web_extract.specs.SomeAnswer.{places_some};

    type Output = Result<(A, B), Error>;

    ghost is_finished = { λ f. place_finished A.Future.is_finished f.first
        || place_finished B.Future.is_finished f.second };

    ghost gives = { λ f n x. Joins2
        (place_comes A.Error.converts A.Future.gives f.first)
        (place_comes B.Error.converts B.Future.gives f.second) n x };

    ghost needs_no_memory = { λ f. PlaceNeedsNoMemory A.Future.needs_no_memory f.first
        × PlaceNeedsNoMemory B.Future.needs_no_memory f.second
        × NotBothRefuse
        (place_comes A.Error.converts A.Future.gives f.first)
        (place_comes B.Error.converts B.Future.gives f.second) };

    ghost some = { λ f h. places_some
        A.Error.converts A.converted A.Future.is_finished A.Future.gives A.Future.some
        B.Error.converts B.converted B.Future.is_finished B.Future.gives B.Future.some
        f.first f.second h };

    fn finished(&self) -> bool {
        self.first.finished() || self.second.finished()
    }

    fn poll(&mut self, alloc: Global) -> Step<Result<(A, B), Error>> {
        let has_first = match self.first.advance(alloc) {
            Ok(has) => has,
            Err(NoMemory) => return Step::NoMemory,
        };
        let has_second = match self.second.advance(alloc) {
            Ok(has) => has,
            Err(NoMemory) => return Step::NoMemory,
        };
        if !(has_first & has_second) {
            return Step::Pending;
        }
        let first = mem::replace(&mut self.first, Place::Taken);
        let second = mem::replace(&mut self.second, Place::Taken);
        match (first, second) {
            (Place::Done(a), Place::Done(b)) => collected_step(alloc, a, b),
            _ => unreachable!(),
        }
    }
}

/// Both values, or the one refusal, or both refusals joined.
fn collected_step<A: Drop, B: Drop>(
    alloc: Global,
    first: Result<A, Error>,
    second: Result<B, Error>,
) -> Step<Result<(A, B), Error>>
    ensures ready { IfReady result (λ x. x ≡ collected2 first second) }
    ensures never { IsPending result → ⊥ }
    ensures memory { IsOneRefusal first second → NeverNoMemory result }
{
    match (first, second) {
        (Ok(a), Ok(b)) => Step::Ready(Ok((a, b))),
        (Ok(_), Err(refusal)) => Step::Ready(Err(refusal)),
        (Err(refusal), Ok(_)) => Step::Ready(Err(refusal)),
        (Err(refusal), Err(other)) => match both_refusals(alloc, refusal, other) {
            Ok(error) => Step::Ready(Err(error)),
            Err(NoMemory) => Step::NoMemory,
        },
    }
}

fn both_refusals(alloc: Global, first: Error, second: Error) -> Result<Error, NoMemory>
    ensures { IfOk result (λ error. join (first ∷ second ∷ []) ≡ Some error) }
{
    Error::join(alloc, vec![in alloc; first, second]?)
}

/// Begins two arguments, the second with the payload as the first leaves it.
pub(crate) fn both<P: App, A: FromRequest<P>, B: FromRequest<P>>(
    alloc: Global,
    req: &HttpRequest<P>,
    payload: &mut Payload<P::Source>,
) -> Result<(A::Future, B::Future), NoMemory>
    ensures fresh { IfOk result (λ f. (A.Future.is_finished f.0 ≡ false)
        × (B.Future.is_finished f.1 ≡ false)) }
    ensures extracts { IfOk result (λ f. ExtractsBoth
        (A.means req.now.request) (B.means req.now.request)
        (A.Future.gives f.0) (B.Future.gives f.1)
        (payload_feed P.Source.feed payload.old).marks
        (payload_feed P.Source.feed payload.new).marks) }
    ensures payload { (payload.new ≡ payload.old) ⊎ (payload.new ≡ Payload.None) }
    ensures left { A.leaves req.now.request × B.leaves req.now.request
        → payload.new ≡ payload.old }
    ensures unread { A.leaves req.now.request × B.leaves req.now.request
        → IfOk result (λ f. ExtractsUnread (A.means req.now.request) (A.Future.gives f.0)
        × ExtractsUnread (B.means req.now.request) (B.Future.gives f.1)) }
    ensures memory { A.needs_no_memory req.now.request × B.needs_no_memory req.now.request
        → IsOk result }
{
    let first = A::from_request(alloc, req, payload)?;
    let second = B::from_request(alloc, req, payload)?;
    Ok((first, second))
}

/// Both arguments. The second gets the payload as the first left it.
impl<P: App, A: FromRequest<P>, B: FromRequest<P>> FromRequest<P> for (A, B) {
    ghost use Rattle.web_extract.specs.ListMeanings.{Member, Means2};
    ghost use Rattle.web_extract.specs.SomeAnswer.{means2_some, member_some, itself};

    type Error = Error;

    type Future = TupleFromRequest2<P, A, B>;

    ghost means = { λ q m rest n x. Means2
        (Member A.Error.converts (A.means q))
        (Member B.Error.converts (B.means q)) m rest n x };

    ghost needs_no_memory = { λ q. A.needs_no_memory q × B.needs_no_memory q };

    ghost leaves = { λ q. A.leaves q × B.leaves q };

    ghost some = { λ q m. means2_some
        (Member A.Error.converts (A.means q))
        (Member B.Error.converts (B.means q))
        (member_some A.Error.converts A.converted (A.means q) (A.some q))
        (member_some B.Error.converts B.converted (B.means q) (B.some q)) m };

    ghost converted = { itself };

    fn from_request(
        alloc: Global,
        req: &HttpRequest<P>,
        payload: &mut Payload<P::Source>,
    ) -> Result<TupleFromRequest2<P, A, B>, NoMemory> {
        let (first, second) = both::<P, A, B>(alloc, req, payload)?;
        Ok(TupleFromRequest2 {
            first: Place::Waiting(first),
            second: Place::Waiting(second),
        })
    }
}
