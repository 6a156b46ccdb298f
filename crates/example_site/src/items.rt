//! `GET /items/{id}` and `POST /items`: an item as JSON.
use crate::extracted::extracted;
use crate::item::Item;
use crate::missing::no_such_page;
use crate::reply::{Plain, Reply};
use http::StatusCode;
use std::alloc::Global;
use web_body::{Marks, Payload};
use web_build::prelude::*;
use web_extract::Capped;
use web_extract_body::Json;
use web_reply::{Error, HttpResponse};
use web_request::HttpRequest;
use web_status::json_error_reply;
use web_texts::{Fail, Items, NoMemory, Text, read_digits};

/// The most bytes of an item as JSON: what is decoded of them may need 350 times as many.
const MOST_JSON: usize = 16_384;

/// A response of an item.
fn written(alloc: Global, status: StatusCode, item: &Item) -> Result<Reply, NoMemory> {
    HttpResponse::build(alloc, status).json(item)
}

/// The item of a number. Where `id` is none, there is no such page.
pub fn show_item(alloc: Global, id: &str) -> Result<Reply, NoMemory> {
    match read_digits(id, u64::MAX) {
        Some(id) => {
            let name = Text::from(format!(in alloc; "item {id}")?);
            let tags = Items::of(Vec::new(alloc));
            written(alloc, StatusCode::OK, &Item { id, name, tags })
        }
        None => no_such_page(alloc),
    }
}

/// An error as JSON.
fn json_refusal(alloc: Global, error: Error) -> Result<Reply, NoMemory> {
    let text = format!(in alloc; "{error}")?;
    let status = HttpResponse::from_error(alloc, error)?.status();
    json_error_reply(alloc, status, text.as_str())?.map_into_boxed_body(alloc)
}

/// Takes an item, and responds with what was read of it. It is not kept. An error is JSON too.
pub fn take_item(
    alloc: Global,
    request: &HttpRequest<Plain>,
    payload: Payload<Marks>,
) -> Result<Reply, NoMemory> {
    let mut payload = payload;
    match extracted::<Capped<Json<Item>, MOST_JSON>>(alloc, request, &mut payload) {
        Ok(Capped(Json(item))) => written(alloc, StatusCode::CREATED, &item),
        Err(Fail::Of(error)) => json_refusal(alloc, error),
        Err(Fail::NoMemory) => Err(NoMemory),
    }
}
