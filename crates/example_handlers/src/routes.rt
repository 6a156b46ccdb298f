//! Exchanges that are told apart by their paths, with the kit's `matchit`.

use matchit::{InsertError, Router};
use std::alloc::Global;
use web_request::{App, NoMemory, Pair};
use web_worker::Exchange;

/// What an application has under a path.
#[derive(Clone, Copy, Debug, PartialEq, Eq)]
pub enum Page {
    /// All bookings.
    Bookings,
    /// One booking, whose parameter is `id`.
    Booking,
}

/// The pages by their paths.
pub fn pages(alloc: Global) -> Result<Router<Page>, InsertError> {
    let mut router = Router::new(alloc);
    router.insert("/bookings", Page::Bookings)?;
    router.insert("/bookings/{id}", Page::Booking)?;
    Ok(router)
}

/// The page of an exchange, which gets the parameters of its path. `None` where no page has the
/// path.
pub fn page_of<A: App>(
    alloc: Global,
    pages: &Router<Page>,
    exchange: &mut Exchange<A>,
) -> Result<Option<Page>, NoMemory> {
    let Ok(found) = pages.at(exchange.head.uri.path()) else {
        return Ok(None);
    };
    let page = *found.value;
    let mut params = Vec::new(alloc);
    for (name, value) in found.params.iter() {
        params.push(Pair::new(alloc, name, value)?)?;
    }
    exchange.params = params;
    Ok(Some(page))
}
