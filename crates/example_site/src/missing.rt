//! What is there under no path, what a path does not take, and what an error says.
use crate::page::Page;
use crate::reply::Reply;
use crate::routes::Route;
use http::StatusCode;
use http_header::{ALLOW, HeaderValue};
use std::alloc::Global;
use web_reply::{Error, HttpResponse};
use web_texts::NoMemory;

/// The page of a status: its reason phrase, and a text.
fn status_page(alloc: Global, status: StatusCode, text: &str) -> Result<Reply, NoMemory> {
    let reason = status.canonical_reason().unwrap_or("Refused");
    let mut page = Page::new(alloc, reason)?;
    page.push("<h1>")?;
    page.push(reason)?;
    page.push("</h1>\n<p>")?;
    page.push_text(text)?;
    page.push("</p>\n<p><a href=\"/\">The first page</a></p>\n")?;
    page.reply(alloc, status)
}

/// 404.
pub fn no_such_page(alloc: Global) -> Result<Reply, NoMemory> {
    status_page(alloc, StatusCode::NOT_FOUND, "There is no such page.")
}

/// The reply with the methods that may be used in its header Allow.
fn with_allowed(mut reply: Reply, allowed: HeaderValue) -> Result<Reply, NoMemory> {
    match reply.headers_mut().insert(ALLOW, allowed) {
        Ok(_) => Ok(reply),
        Err(_) => Err(NoMemory),
    }
}

/// 405, with the methods that the route takes.
pub fn no_such_method(alloc: Global, route: Route) -> Result<Reply, NoMemory> {
    let status = StatusCode::METHOD_NOT_ALLOWED;
    let reply = status_page(alloc, status, "This page does not take the method.")?;
    with_allowed(reply, route.allowed())
}

/// 204, with these methods: the answer to OPTIONS.
pub fn options(alloc: Global, allowed: HeaderValue) -> Result<Reply, NoMemory> {
    let reply = HttpResponse::new(alloc, StatusCode::NO_CONTENT).map_into_boxed_body(alloc)?;
    with_allowed(reply, allowed)
}

/// The page of an error: its status and its text.
pub fn error_page(alloc: Global, error: Error) -> Result<Reply, NoMemory> {
    let text = format!(in alloc; "{error}")?;
    let status = HttpResponse::from_error(alloc, error)?.status();
    status_page(alloc, status, text.as_str())
}
