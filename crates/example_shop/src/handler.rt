//! The handler of orders.
use crate::error::ShopError;
use crate::item::Item;
use crate::order::Order;
use std::alloc::Global;
use web::build::prelude::*;
use web::cookie::{Cookie, SameSite};
use web::headers::AcceptLanguage;
use web::status::prelude::*;
use web::{BoxBody, Fail, Header, HttpResponse, Json, Marks, NoMemory, Query, Text};

/// How many there are of each item.
const STOCK: u64 = 10;

/// The arguments of an order: the count of the query, the item of the body, and the languages that
/// the client reads.
pub type OrderArguments = (Query<Order>, Json<Item>, Header<AcceptLanguage>);

/// The response to an order.
pub type Reply = HttpResponse<BoxBody<Marks>>;

/// The cookie that keeps what was ordered last.
fn basket(alloc: Global, name: &str) -> Result<Cookie, NoMemory> {
    let mut cookie = Cookie::new(Text::of(alloc, "basket")?, Text::of(alloc, name)?);
    cookie.set_path(Some(Text::of(alloc, "/")?));
    cookie.set_http_only(true);
    cookie.set_same_site(Some(SameSite::Lax));
    Ok(cookie)
}

/// Responds with 201, the item as JSON, a cookie and a header.
fn created(alloc: Global, item: &Item, language: &str) -> Result<Reply, NoMemory> {
    let cookie = basket(alloc, item.name.as_str())?;
    let mut builder = HttpResponse::Created(alloc);
    builder.cookie(&cookie)?;
    builder.try_insert_header("x-language", language)?;
    builder.take().json(item)
}

/// `POST /orders`: takes an order.
pub fn take_order(alloc: Global, arguments: OrderArguments) -> Result<Reply, Fail<ShopError>> {
    let (Query(order), Json(item), Header(language)) = arguments;
    match order.count {
        0 => Err(Fail::Of(ShopError::Nothing)),
        1..=STOCK => {
            let language = format!(in alloc; "{language}")?;
            Ok(created(alloc, &item, language.as_str())?)
        }
        _ => Err(Fail::Of(ShopError::SoldOut { left: STOCK })),
    }
}

/// All other paths: 404.
pub fn no_such_page() -> Result<Text, Fail<ShopError>> {
    Err(Fail::Of(ShopError::NoSuchPage))
}
