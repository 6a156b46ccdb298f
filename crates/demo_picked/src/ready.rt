//! Arguments that are there at once.
ghost use Rattle.std.specs.Prelude.{◌≡◌, ◌⊎◌, IfOk, IsOk, false, is_none};
ghost use Rattle.web_body.specs.Payload.{payload_feed};
ghost use Rattle.web_extract.specs.Extracts.{Extracts};
ghost use Rattle.web_extract.specs.ReadyFuture.{GivesHeld};
ghost use Rattle.demo_picked.specs.PickedArguments.{HeadNeedsNoMemory, MeansHead, MeansRead};
ghost use Rattle.demo_picked.specs.PickedArguments.{MeansRequestAs};
ghost use Rattle.demo_picked.specs.PickedRequests.{picked_request};

use crate::picked::Picked;
use crate::picked_future::{picked_now, value_of};
use demo_app::{Demo, Item};
use demo_arguments::{
    CookieArguments, HeadChoice, ReadChoice, RequestArguments, RequestChoice, Wait,
};
use std::alloc::Global;
use web_body::{Marks, Payload};
use web_extract::{FromRequest, Ready};
use web_extract_head::{Header, Path, Query};
use web_headers::Accept;
use web_reply::Error;
use web_request::{ConnectionInfo, HttpRequest, NoMemory};

/// What is picked of the parameters, of the query, of a header, or of the body unread, as a future.
///
/// It stands apart, since the variables of every choice would be cleared for each request.
#[inline(never)]
pub(crate) fn read_future(
    alloc: Global,
    req: &HttpRequest<Demo>,
    payload: &mut Payload<Marks>,
    choice: ReadChoice,
) -> Result<Ready<Result<Picked, Error>>, NoMemory>
    ensures fresh { IfOk result (λ f. is_none f ≡ false) }
    ensures extracts { IfOk result (λ f. Extracts
        (λ m rest n x. MeansRead choice req.now.request m rest n x)
        (λ n x. GivesHeld f n x)
        (payload_feed (λ feed. feed) payload.old).marks
        (payload_feed (λ feed. feed) payload.new).marks) }
    ensures payload { (payload.new ≡ payload.old) ⊎ (payload.new ≡ Payload.None) }
{
    match choice {
        ReadChoice::Path => {
            let future = Path::<Item>::from_request(alloc, req, payload)?;
            Ok(picked_now(alloc, future))
        }
        ReadChoice::Query => {
            let future = Query::<Item>::from_request(alloc, req, payload)?;
            Ok(picked_now(alloc, future))
        }
        ReadChoice::Header => {
            let future = Header::<Accept>::from_request(alloc, req, payload)?;
            Ok(picked_now(alloc, future))
        }
        ReadChoice::Raw => {
            let future = Payload::<Marks>::from_request(alloc, req, payload)?;
            Ok(picked_now(alloc, future))
        }
    }
}

/// What is picked of a request.
fn picked_of(choice: RequestChoice, request: HttpRequest<Demo>) -> Picked
    ensures { result ≡ picked_request choice request }
{
    match choice {
        RequestChoice::Cookies => Picked::Cookies(CookieArguments { request }),
        RequestChoice::Document => Picked::Document(RequestArguments { request }),
        RequestChoice::Variant => Picked::Variant(RequestArguments { request }),
    }
}

/// What is picked of the request itself, as a future.
fn request_future(
    alloc: Global,
    req: &HttpRequest<Demo>,
    payload: &mut Payload<Marks>,
    choice: RequestChoice,
) -> Result<Ready<Result<Picked, Error>>, NoMemory>
    ensures fresh { IfOk result (λ f. is_none f ≡ false) }
    ensures extracts { IfOk result (λ f. Extracts
        (λ m rest n x. MeansRequestAs choice req.now.request m rest n x)
        (λ n x. GivesHeld f n x)
        (payload_feed (λ feed. feed) payload.old).marks
        (payload_feed (λ feed. feed) payload.new).marks) }
    ensures payload { (payload.new ≡ payload.old) ⊎ (payload.new ≡ Payload.None) }
{
    let future = HttpRequest::<Demo>::from_request(alloc, req, payload)?;
    match value_of(alloc, future) {
        Ok(request) => Ok(Ready::new(Ok(picked_of(choice, request)))),
        Err(e) => Ok(Ready::new(Err(e))),
    }
}

/// What is picked of where a request came from, of the request itself, of how long the handler
/// waits, or of nothing, as a future.
///
/// It stands apart, since the variables of every choice would be cleared for each request.
#[inline(never)]
pub(crate) fn head_future(
    alloc: Global,
    req: &HttpRequest<Demo>,
    payload: &mut Payload<Marks>,
    choice: HeadChoice,
) -> Result<Ready<Result<Picked, Error>>, NoMemory>
    ensures fresh { IfOk result (λ f. is_none f ≡ false) }
    ensures extracts { IfOk result (λ f. Extracts
        (λ m rest n x. MeansHead choice req.now.request m rest n x)
        (λ n x. GivesHeld f n x)
        (payload_feed (λ feed. feed) payload.old).marks
        (payload_feed (λ feed. feed) payload.new).marks) }
    ensures payload { (payload.new ≡ payload.old) ⊎ (payload.new ≡ Payload.None) }
    ensures memory { HeadNeedsNoMemory choice → IsOk result }
{
    match choice {
        HeadChoice::Who => {
            let future = ConnectionInfo::from_request(alloc, req, payload)?;
            Ok(picked_now(alloc, future))
        }
        HeadChoice::Request(choice) => {
            let future = request_future(alloc, req, payload, choice)?;
            Ok(future)
        }
        HeadChoice::Wait => {
            let future = Wait::from_request(alloc, req, payload)?;
            Ok(picked_now(alloc, future))
        }
        HeadChoice::Other => {
            let future = <()>::from_request(alloc, req, payload)?;
            Ok(picked_now(alloc, future))
        }
    }
}
