//! Replies without a file.
ghost use Rattle.std.specs.Prelude.{◌≡◌, IfOk, Some, string_bytes};
ghost use Rattle.web_docs.specs.DescribedReplies.{reply_with};
ghost use Rattle.web_folders.specs.FolderReplies.{failed as failed_lem, is_read as is_read_lem};
ghost use Rattle.web_folders.specs.FolderReplies.{listing_reply};
ghost use Rattle.web_docs.specs.Documents.{field_value_of};
ghost use Rattle.web_folders.specs.FolderReplies.{moved_reply, not_found as not_found_lem};
ghost use Rattle.web_folders.specs.FolderReplies.{moved_to as moved_to_lem};
ghost use Rattle.web_folders.specs.FolderReplies.{no_such_method as no_such_method_lem};
ghost use Rattle.web_folders.specs.FolderReplies.{page_body as page_body_lem};
ghost use Rattle.web_folders.specs.FolderReplies.{with_slash as with_slash_lem};

use crate::added_headers::put;
use crate::body::FolderBody;
use bytes::Bytes;
use http::{Method, StatusCode};
use http_header::{
    ALLOW, CONTENT_SECURITY_POLICY, CONTENT_TYPE, HeaderMap, HeaderValue, HeaderValueError,
    LOCATION, X_CONTENT_TYPE_OPTIONS,
};
use std::alloc::Global;
use web_reply::HttpResponse;
use web_texts::NoMemory;

/// Sets the headers of a response in place of its own.
pub(crate) fn set_headers(headers: &mut HeaderMap<HeaderValue>, map: HeaderMap<HeaderValue>)
    ensures { headers.new ≡ map }
{
    *headers = map;
}

fn response<F: Drop>(
    alloc: Global,
    status: StatusCode,
    headers: HeaderMap<HeaderValue>,
    body: FolderBody<F>,
) -> HttpResponse<FolderBody<F>>
    ensures { result ≡ reply_with status headers body }
{
    let mut reply = HttpResponse::with_body(alloc, status, body);
    set_headers(reply.headers_mut(), headers);
    reply
}

/// An empty 404.
pub(crate) fn not_found<F: Drop>(alloc: Global) -> HttpResponse<FolderBody<F>>
    ensures { result ≡ not_found_lem }
{
    HttpResponse::with_body(alloc, StatusCode::NOT_FOUND, FolderBody::Empty)
}

/// An empty 500.
pub(crate) fn failed<F: Drop>(alloc: Global) -> HttpResponse<FolderBody<F>>
    ensures { result ≡ failed_lem }
{
    HttpResponse::with_body(alloc, StatusCode::INTERNAL_SERVER_ERROR, FolderBody::Empty)
}

/// Whether a method reads: GET and HEAD do.
pub(crate) fn is_read(method: &Method) -> bool
    ensures { result ≡ is_read_lem method.now }
{
    *method == Method::GET || *method == Method::HEAD
}

/// An empty 405.
pub(crate) fn no_such_method<F: Drop>(
    alloc: Global,
) -> Result<HttpResponse<FolderBody<F>>, NoMemory>
    ensures { IfOk result (λ reply. reply ≡ no_such_method_lem) }
{
    let mut headers = HeaderMap::empty(alloc);
    put(
        &mut headers,
        ALLOW,
        Some(HeaderValue::from_static("GET, HEAD")),
    )?;
    Ok(response(
        alloc,
        StatusCode::METHOD_NOT_ALLOWED,
        headers,
        FolderBody::Empty,
    ))
}

/// The path with a slash after it, and the query.
fn with_slash(alloc: Global, path: &str, query: &str) -> Result<String, NoMemory>
    ensures { IfOk result (λ text. string_bytes text ≡ with_slash_lem path.now query.now) }
{
    let mut text = String::from_str(alloc, path)?;
    text.push_str("/")?;
    if !query.is_empty() {
        text.push_str("?")?;
        text.push_str(query)?;
    }
    Ok(text)
}

/// The value of Location that is this text, if it may stand in a header.
fn location(text: String) -> Result<Option<HeaderValue>, NoMemory>
    ensures { IfOk result (λ value. value ≡ field_value_of (string_bytes text)) }
{
    match HeaderValue::from_string(text) {
        Ok(value) => {
            // It says that a header may hold the value.
            let _bytes = value.as_bytes();
            Ok(Some(value))
        }
        Err(HeaderValueError::Invalid) => Ok(None),
        Err(HeaderValueError::OutOfMemory) => Err(NoMemory),
    }
}

fn moved_to<F: Drop>(
    alloc: Global,
    location: HeaderValue,
) -> Result<HttpResponse<FolderBody<F>>, NoMemory>
    ensures { IfOk result (λ reply. reply ≡ moved_to_lem (Some location)) }
{
    let mut headers = HeaderMap::empty(alloc);
    put(&mut headers, LOCATION, Some(location))?;
    let status = StatusCode::MOVED_PERMANENTLY;
    Ok(response(alloc, status, headers, FolderBody::Empty))
}

/// The redirect to the path with a slash after it, which keeps the query. 404 if no header can have
/// it.
pub(crate) fn moved<F: Drop>(
    alloc: Global,
    path: &str,
    query: &str,
) -> Result<HttpResponse<FolderBody<F>>, NoMemory>
    ensures { IfOk result (λ reply. reply ≡ moved_reply path.now query.now) }
{
    let text = with_slash(alloc, path, query)?;
    match location(text)? {
        Some(location) => moved_to(alloc, location),
        None => Ok(not_found(alloc)),
    }
}

/// What the reply to this method sends of a page.
fn page_body<F: Drop>(method: &Method, page: Bytes) -> FolderBody<F>
    ensures { result ≡ page_body_lem method.now page }
{
    if *method == Method::HEAD {
        FolderBody::Omitted(page.len() as u64)
    } else {
        FolderBody::Page(page)
    }
}

/// The reply with the page that lists a folder.
pub(crate) fn listing<F: Drop>(
    alloc: Global,
    method: &Method,
    page: String,
) -> Result<HttpResponse<FolderBody<F>>, NoMemory>
    ensures { IfOk result (λ reply. reply ≡ listing_reply method.now (string_bytes page)) }
{
    let html = HeaderValue::from_static("text/html; charset=utf-8");
    let policy = HeaderValue::from_static("default-src 'none'");
    let nosniff = HeaderValue::from_static("nosniff");
    let mut headers = HeaderMap::empty(alloc);
    put(&mut headers, CONTENT_TYPE, Some(html))?;
    put(&mut headers, CONTENT_SECURITY_POLICY, Some(policy))?;
    put(&mut headers, X_CONTENT_TYPE_OPTIONS, Some(nosniff))?;
    let body = page_body(method, Bytes::from_vec(page.into_bytes())?);
    Ok(response(alloc, StatusCode::OK, headers, body))
}
