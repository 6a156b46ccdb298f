//! What the handler responds with.
ghost use Rattle.std.specs.Prelude.{◌≡◌, ◌∷◌, [], IfOk, IsOk, OnOk, codes};
ghost use Rattle.http_header.specs.FieldValue.{plain_value};
ghost use Rattle.web_reply.specs.Replies.{plain_reply};
ghost use Rattle.web_reply.specs.ResponseBodies.{box_plain, whole_plain};
ghost use Rattle.web_request.specs.KeptValues.{known_cookies};
ghost use Rattle.web_texts.specs.Returns.{ReturnsBy};
ghost use Rattle.demo_content.specs.AnswerReplies.{cookie_error, cookies_refusal, cookies_reply};
ghost use Rattle.demo_content.specs.AnswerReplies.{demo_document_reply, demo_variant_reply};
ghost use Rattle.demo_content.specs.AnswerReplies.{output_reply, raw_reply};
ghost use Rattle.demo_content.specs.DemoTexts.{printed_cookies};

use crate::documents::DemoDocuments;
use crate::texts::cookies_text;
use crate::variants::DemoVariants;
use bytes::Bytes;
use demo_app::{Demo, Item};
use demo_arguments::{CookieArguments, RawBody, RequestArguments};
use http::StatusCode;
use http_header::{CONTENT_TYPE, HeaderMap, HeaderValue};
use std::alloc::Global;
use web_body::Marks;
use web_extract_body::{Form, Json};
use web_reply::{BoxBody, Cause, Done, Error, HttpResponse, Responder, WholeBody};
use web_request::cookies::CookieParseError;
use web_request::{App, Fail, HttpRequest, NoMemory};
use web_texts::Text;

/// A value that the handler responds with. `S` is the source of bodies that are streams.
#[derive(Drop)]
pub enum Answer<S> {
    /// A 200 with these bytes.
    Bytes(Bytes),
    /// A 200 with this text.
    Text(Text),
    /// A 200 with this item as JSON.
    Json(Item),
    /// A 200 with this item as a form.
    Form(Item),
    /// An empty 204, as `Done(Ok(()))` responds.
    Done,
    /// An empty 404, as `None` responds.
    None,
    /// A response that was made. It is in a `Box`, so that the other answers stay small.
    Response(Box<HttpResponse<BoxBody<S>>>),
}

/// The output of the handler.
pub type DemoOutput = Answer<Marks>;

/// Puts the content type of bytes into an empty map.
fn put_octet_stream(headers: &mut HeaderMap<HeaderValue>) -> Result<(), NoMemory>
    requires none { headers.old ≡ [] }
    ensures { OnOk result (headers.new
        ≡ (codes "content-type", plain_value (codes "application/octet-stream") ∷ []) ∷ []) }
{
    match headers.insert(
        CONTENT_TYPE,
        HeaderValue::from_static("application/octet-stream"),
    ) {
        Ok(_) => Ok(()),
        Err(_) => Err(NoMemory),
    }
}

/// A 200 with what is left of this body, as a stream of bytes.
fn raw_response(alloc: Global, body: RawBody) -> Result<HttpResponse<BoxBody<Marks>>, NoMemory>
    ensures { IfOk result (λ reply.
        plain_reply (λ b. box_plain (λ feed. feed) b) reply ≡ raw_reply body) }
{
    let RawBody { payload } = body;
    let stream = BoxBody::Stream(Box::new(alloc, payload)?);
    let mut reply = HttpResponse::with_body(alloc, StatusCode::OK, stream);
    match put_octet_stream(reply.headers_mut()) {
        Ok(()) => Ok(reply),
        Err(e) => Err(e),
    }
}

/// A 200 with what is left of this body, as an answer.
pub fn raw_answer(alloc: Global, body: RawBody) -> Result<DemoOutput, NoMemory>
    ensures { IfOk result (λ output. output_reply output ≡ raw_reply body) }
{
    let response = raw_response(alloc, body)?;
    Ok(Answer::Response(Box::new(alloc, response)?))
}

/// The error of cookies that cannot be read: status 400 with its text.
fn cookie_error(alloc: Global, error: CookieParseError) -> Result<Error, NoMemory>
    ensures { IfOk result (λ made. made ≡ cookie_error error) }
{
    let text = Text::from(error.to_string(alloc)?);
    Ok(Error::from(Cause::Custom {
        status: StatusCode::BAD_REQUEST,
        text,
    }))
}

/// The cookies of a request as a text, or why they cannot be read.
fn printed_cookies(
    alloc: Global,
    request: &mut HttpRequest<Demo>,
) -> Result<Text, Fail<CookieParseError>>
    ensures { ReturnsBy (λ text. text) result (printed_cookies (known_cookies request.old)) }
{
    let cookies = request.cookies(alloc)?;
    Ok(cookies_text(alloc, cookies)?)
}

/// The reply to the error of cookies that cannot be read.
fn refused_cookies(alloc: Global, error: CookieParseError) -> Result<DemoOutput, NoMemory>
    ensures { IfOk result (λ output. output_reply output ≡ cookies_refusal error) }
{
    let error = cookie_error(alloc, error)?;
    let response = HttpResponse::from_error(alloc, error)?.map_into_boxed_body(alloc)?;
    Ok(Answer::Response(Box::new(alloc, response)?))
}

/// The cookies of a request as a text, or the reply to the error where they cannot be read.
pub fn cookies_answer(alloc: Global, arguments: CookieArguments) -> Result<DemoOutput, NoMemory>
    ensures { IfOk result (λ output. output_reply output ≡ cookies_reply arguments) }
{
    let CookieArguments { mut request } = arguments;
    match printed_cookies(alloc, &mut request) {
        Ok(text) => Ok(Answer::Text(text)),
        Err(Fail::NoMemory) => Err(NoMemory),
        Err(Fail::Of(error)) => refused_cookies(alloc, error),
    }
}

/// A response whose body is in memory, as an answer.
fn whole_answer(alloc: Global, response: HttpResponse<WholeBody>) -> Result<DemoOutput, NoMemory>
    ensures { IfOk result (λ output. output_reply output ≡ plain_reply whole_plain response) }
{
    let response = response.map_into_boxed_body(alloc)?;
    Ok(Answer::Response(Box::new(alloc, response)?))
}

/// The reply to a request for a document, as an answer.
pub fn document_answer(
    alloc: Global,
    documents: &mut DemoDocuments,
    arguments: RequestArguments,
) -> Result<DemoOutput, NoMemory>
    ensures { IfOk result (λ output. output_reply output ≡ demo_document_reply arguments) }
{
    let response = documents.answer(alloc, &arguments.request)?;
    whole_answer(alloc, response)
}

/// The reply to a request for a variant, as an answer.
pub fn variant_answer(
    alloc: Global,
    variants: &mut DemoVariants,
    arguments: RequestArguments,
) -> Result<DemoOutput, NoMemory>
    ensures { IfOk result (λ output. output_reply output ≡ demo_variant_reply arguments) }
{
    let response = variants.answer(alloc, &arguments.request)?;
    whole_answer(alloc, response)
}

/// The response of a value, with its body in the common form.
///
/// It stands apart, since the variables of every answer would be cleared for each.
fn boxed_response<A: App, R: Responder<A>>(
    alloc: Global,
    value: R,
    req: &HttpRequest<A>,
) -> Result<HttpResponse<BoxBody<A::Source>>, NoMemory>
    ensures value { IfOk result (λ reply.
        R.responds value req.now.request (plain_reply (λ b. box_plain A.Source.feed b) reply)) }
    ensures memory { R.needs_no_memory value
        → ((body : R.Body) → R.Body.needs_no_memory body) → IsOk result }
{
    value.respond_to(alloc, req)?.map_into_boxed_body(alloc)
}

impl<A: App> Responder<A> for Answer<A::Source> {
    ghost use Rattle.demo_content.specs.AnswerReplies.{AnswerNeedsNoMemory, answer_reply};

    type Body = BoxBody<A::Source>;

    ghost responds = { λ answer q r. r ≡ answer_reply A.Source.feed answer };

    ghost needs_no_memory = { λ answer. AnswerNeedsNoMemory answer };

    fn respond_to(
        self,
        alloc: Global,
        req: &HttpRequest<A>,
    ) -> Result<HttpResponse<BoxBody<A::Source>>, NoMemory> {
        match self {
            Answer::Bytes(bytes) => boxed_response(alloc, bytes, req),
            Answer::Text(text) => boxed_response(alloc, text, req),
            Answer::Json(item) => boxed_response(alloc, Json(item), req),
            Answer::Form(item) => boxed_response(alloc, Form(item), req),
            Answer::Done => {
                let done: Done<Error> = Done(Ok(()));
                boxed_response(alloc, done, req)
            }
            Answer::None => {
                let none: Option<Bytes> = None;
                boxed_response(alloc, none, req)
            }
            Answer::Response(response) => Ok(Box::into_inner(response)),
        }
    }
}
