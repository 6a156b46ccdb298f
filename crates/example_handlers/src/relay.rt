//! A handler of a proxy, which hands the body of a request on without reading it.
ghost use Rattle.std.specs.Prelude.{◌≡◌, ◌+◌, ◌<◌, ◌^◌, [], length, IfOk, OnOk, option_copied};
ghost use Rattle.web_body.specs.Payload.{payload_feed};
ghost use Rattle.web_reply.specs.ResponseBodies.{box_plain};
ghost use Rattle.web_reply.specs.Replies.{plain_reply};
ghost use Rattle.web_worker.specs.AnsweredExchanges.{AreAnswered};
ghost use Rattle.web_worker.specs.Outcomes.{outcome_views};
ghost use Rattle.example_handlers.specs.Relays.{body_fields, relayed_reply, with_field};

use crate::serving::Outcomes;
use http::StatusCode;
use http_header::{
    CONTENT_ENCODING, CONTENT_TYPE, HeaderMap, HeaderMapError, HeaderValue, IntoHeaderName,
};
use std::alloc::Global;
use web_body::Payload;
use web_extract::{Itself, Ready};
use web_reply::{BoxBody, HttpResponse};
use web_request::{App, HttpRequest, NoMemory, Source};
use web_worker::{Exchange, Handler, Worker, exchange_law, plan_law, serve_all};

/// Responds with the payload of a request as a body of unknown length, and with the two fields that
/// say how it is read: the first Content-Type and the first Content-Encoding of the request, where
/// they are there. It keeps no calls.
#[derive(Drop)]
pub struct Relay;

impl<A: App> Handler<(HttpRequest<A>, Payload<A::Source>)> for Relay {
    ghost use Rattle.std.specs.Prelude.{◌≡◌, None};
    ghost use Rattle.web_body.specs.Payload.{payload_feed};
    ghost use Rattle.web_reply.specs.ResponseBodies.{box_plain};
    ghost use Rattle.web_reply.specs.Replies.{plain_reply};
    ghost use Rattle.example_handlers.specs.Relays.{relayed_reply};

    type Output = HttpResponse<BoxBody<A::Source>>;

    type Future = Ready<HttpResponse<BoxBody<A::Source>>>;

    ghost answers = { λ h args n y. (n ≡ 0)
        × (plain_reply (λ b. box_plain A.Source.feed b) y
        ≡ relayed_reply args.0.request.head.headers (payload_feed A.Source.feed args.1).marks) };

    ghost calls = { λ h. None };

    fn call(
        &mut self,
        alloc: Global,
        args: (HttpRequest<A>, Payload<A::Source>),
    ) -> Result<Ready<HttpResponse<BoxBody<A::Source>>>, NoMemory> {
        let (request, payload) = args;
        Ok(Ready::new(relayed(alloc, request.headers(), payload)?))
    }
}

/// The response to a request with these headers and this payload.
fn relayed<S: Source>(
    alloc: Global,
    headers: &HeaderMap<HeaderValue>,
    payload: Payload<S>,
) -> Result<HttpResponse<BoxBody<S>>, NoMemory>
    ensures { IfOk result (λ reply. plain_reply (λ b. box_plain S.feed b) reply
        ≡ relayed_reply headers.now (payload_feed S.feed payload).marks) }
{
    let body = BoxBody::Stream(Box::new(alloc, payload)?);
    let mut reply = HttpResponse::with_body(alloc, StatusCode::OK, body);
    match copy_body_fields(headers, reply.headers_mut()) {
        Ok(()) => Ok(reply),
        Err(_) => Err(NoMemory),
    }
}

/// Copies the fields that say how a body is read into an empty map.
fn copy_body_fields(
    from: &HeaderMap<HeaderValue>,
    to: &mut HeaderMap<HeaderValue>,
) -> Result<(), HeaderMapError>
    requires { to.old ≡ [] }
    ensures { OnOk result (to.new ≡ body_fields from.now) }
{
    put_field(to, CONTENT_TYPE, from.get(CONTENT_TYPE))?;
    put_field(to, CONTENT_ENCODING, from.get(CONTENT_ENCODING))
}

/// Puts a copy of the value, where there is one, in place of all values of this name.
fn put_field<K: IntoHeaderName>(
    to: &mut HeaderMap<HeaderValue>,
    name: K,
    value: Option<&HeaderValue>,
) -> Result<(), HeaderMapError>
    requires { K.is_valid name }
    ensures { OnOk result (to.new ≡ with_field (K.name name) (option_copied value.entry) to.old) }
{
    if let Some(value) = value {
        to.insert(name, value.clone()?)?;
    }
    Ok(())
}

/// Serves the exchanges by the handler of a proxy.
///
/// An exchange whose body states its marks is answered at the first poll that the plan gives it:
/// with status 200, these fields of the request, and a body that has all the marks. No body is
/// read. An exchange that the plan does not name is unfinished, and a failed allocation is the
/// exception.
pub fn serve_relay<A: App>(
    alloc: Global,
    worker: &mut Worker<A>,
    exchanges: Vec<Exchange<A>>,
    plan: &[usize],
) -> Outcomes<A>
    requires room { worker.old.made + length exchanges.items < 2 ^ 64 }
    ensures { IfOk result (λ os. AreAnswered A.Source.feed (λ x. 0)
        (λ x. relayed_reply x.parts.head.headers (payload_feed A.Source.feed x.body).marks)
        plan.now exchanges.items (outcome_views A.Source.feed os.items)) }
{
    exchange_law::<A, (HttpRequest<A>, Payload<A::Source>), Itself, Relay>(&Relay);
    plan_law::<A, (HttpRequest<A>, Payload<A::Source>), Relay>(&Relay);
    serve_all::<A, (HttpRequest<A>, Payload<A::Source>), Relay>(
        alloc, worker, exchanges, plan, &mut Relay,
    )
}
