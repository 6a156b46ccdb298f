//! Outcomes of the values and errors that arguments and handlers give.
ghost use Rattle.std.specs.Prelude.{IfOk};
ghost use Rattle.web_reply.specs.ResponseBodies.{box_plain};
ghost use Rattle.web_reply.specs.Replies.{plain_reply};
ghost use Rattle.web_reply.specs.Responders.{Refuses};
ghost use Rattle.web_worker.specs.Outcomes.{OutcomeMeets, outcome_view};

use crate::outcome::Outcome;
use std::alloc::Global;
use web_reply::{BoxBody, Error, HttpResponse, Responder};
use web_request::{App, HttpRequest, NoMemory};

/// The response to a request with this value.
fn respond<A: App, R: Responder<A>>(
    alloc: Global,
    value: R,
    request: &HttpRequest<A>,
) -> Result<HttpResponse<BoxBody<A::Source>>, NoMemory>
    ensures { IfOk result (λ reply.
        R.responds value request.now.request (plain_reply (box_plain A.Source.feed) reply)) }
{
    value.respond_to(alloc, request)?.map_into_boxed_body(alloc)
}

/// The outcome of an exchange whose handler gave this value.
// Inlined as `store_outcome` is: 40 instructions fewer.
#[inline(always)]
pub fn response_outcome<A: App, R: Responder<A>>(
    alloc: Global,
    value: R,
    request: &HttpRequest<A>,
) -> Outcome<A>
    ensures { OutcomeMeets (λ reply. R.responds value request.now.request reply)
        (outcome_view A.Source.feed result) }
{
    match respond(alloc, value, request) {
        Ok(reply) => Outcome::Reply(reply),
        Err(_) => Outcome::NoMemory,
    }
}

/// The response to a request whose arguments failed with this error.
fn error_response<A: App, E: Into<Error>>(
    alloc: Global,
    error: E,
) -> Result<HttpResponse<BoxBody<A::Source>>, NoMemory>
    ensures { IfOk result (λ reply.
        Refuses E.converts error (plain_reply (box_plain A.Source.feed) reply)) }
{
    HttpResponse::from_error(alloc, error.into())?.map_into_boxed_body(alloc)
}

/// The outcome of an exchange whose arguments failed with this error.
pub fn error_outcome<A: App, E: Into<Error>>(alloc: Global, error: E) -> Outcome<A>
    ensures { OutcomeMeets (λ reply. Refuses E.converts error reply)
        (outcome_view A.Source.feed result) }
{
    match error_response::<A, E>(alloc, error) {
        Ok(reply) => Outcome::Reply(reply),
        Err(_) => Outcome::NoMemory,
    }
}
