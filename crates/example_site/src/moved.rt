//! `GET /old`: a redirect.
use crate::reply::{Plain, Reply};
use std::alloc::Global;
use web_build::Redirect;
use web_reply::Responder;
use web_request::HttpRequest;
use web_texts::{NoMemory, Text};

/// Redirects to the first page, for good.
pub fn moved(alloc: Global, request: &HttpRequest<Plain>) -> Result<Reply, NoMemory> {
    let redirect = Redirect::to(alloc, Text::of(alloc, "/")?)?.permanent();
    redirect
        .respond_to(alloc, request)?
        .map_into_boxed_body(alloc)
}
