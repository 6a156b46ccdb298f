//! Replies of the site.
use crate::missing::error_page;
use http_header::{
    CACHE_CONTROL, CONTENT_SECURITY_POLICY, CONTENT_TYPE, HeaderName, HeaderValue,
    X_CONTENT_TYPE_OPTIONS,
};
use std::alloc::Global;
use web_body::Marks;
use web_reply::{BoxBody, Error, HttpResponse};
use web_request::PlainApp;
use web_texts::{Fail, NoMemory};

/// The application: no configuration or data of its own, and bodies in memory.
pub type Plain = PlainApp<Marks>;

/// A response of the site.
pub type Reply = HttpResponse<BoxBody<Marks>>;

/// What a handler of the site returns: a response, or an error that becomes one.
pub type Answer = Result<Reply, Fail<Error>>;

/// The response of an answer. An error becomes a page.
pub fn replied(alloc: Global, answer: Answer) -> Result<Reply, NoMemory> {
    match answer {
        Ok(reply) => Ok(reply),
        Err(Fail::Of(error)) => error_page(alloc, error),
        Err(Fail::NoMemory) => Err(NoMemory),
    }
}

/// A page shows what the site sends and nothing else, and stands in no frame of another site.
const POLICY: &str = "default-src 'none'; img-src 'self'; form-action 'self'; base-uri 'none'; \
    frame-ancestors 'none'";

fn is_page(reply: &Reply) -> bool {
    match reply.headers().get(CONTENT_TYPE) {
        Some(value) => value.as_bytes().starts_with(b"text/html"),
        None => false,
    }
}

fn insert(reply: &mut Reply, name: HeaderName, value: HeaderValue) -> Result<(), NoMemory> {
    match reply.headers_mut().insert(name, value) {
        Ok(_) => Ok(()),
        Err(_) => Err(NoMemory),
    }
}

/// The reply with the headers that each one has, and those that each page has. A client asks again
/// before it shows what it kept.
pub fn with_headers(reply: Reply) -> Result<Reply, NoMemory> {
    let mut reply = reply;
    let asked_again = HeaderValue::from_static("no-cache");
    insert(&mut reply, CACHE_CONTROL, asked_again)?;
    let as_said = HeaderValue::from_static("nosniff");
    insert(&mut reply, X_CONTENT_TYPE_OPTIONS, as_said)?;
    if is_page(&reply) {
        insert(
            &mut reply,
            CONTENT_SECURITY_POLICY,
            HeaderValue::from_static(POLICY),
        )?;
    }
    Ok(reply)
}
