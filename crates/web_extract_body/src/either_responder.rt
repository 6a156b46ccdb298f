//! One of two values as a responder.

use crate::either::Either;
use std::alloc::Global;
use web_reply::{EitherBody, HttpResponse, Responder};
use web_request::{App, HttpRequest, NoMemory};

/// The response of the value, whichever side it is of.
impl<A: App, L: Responder<A>, R: Responder<A>> Responder<A> for Either<L, R> {
    ghost use Rattle.web_extract_body.specs.EitherReplies.{RespondsEither};
    ghost use Rattle.web_extract_body.specs.EitherReplies.{EitherReplyNeedsNoMemory};

    type Body = EitherBody<L::Body, R::Body>;

    ghost responds = { λ value q r. RespondsEither L.responds R.responds value q r };

    ghost needs_no_memory = { λ value. EitherReplyNeedsNoMemory
        L.needs_no_memory R.needs_no_memory value };

    fn respond_to(
        self,
        alloc: Global,
        req: &HttpRequest<A>,
    ) -> Result<HttpResponse<EitherBody<L::Body, R::Body>>, NoMemory> {
        match self {
            Either::Left(value) => match value.respond_to(alloc, req) {
                Ok(response) => Ok(response.map_into_left_body()),
                Err(e) => Err(e),
            },
            Either::Right(value) => match value.respond_to(alloc, req) {
                Ok(response) => Ok(response.map_into_right_body()),
                Err(e) => Err(e),
            },
        }
    }
}
