//! The handler of the site, which hands each request to that of its route.
use crate::bookings::{show_booking, take_booking};
use crate::files::{answer_file, new_store};
use crate::greeting::{answer_greeting, new_greetings};
use crate::home::home;
use crate::items::{show_item, take_item};
use crate::missing::{no_such_method, no_such_page, options};
use crate::moved::moved;
use crate::reply::{Answer, Plain, Reply, replied, with_headers};
use crate::routes::{Found, Route, find, routes};
use crate::upload::list_parts;
use crate::visits::count_visit;
use anyhow::Result;
use http::Method;
use http_header::HeaderValue;
use matchit::Router;
use std::alloc::Global;
use web_body::{Marks, Payload};
use web_docs::Store;
use web_extract::Ready;
use web_request::HttpRequest;
use web_texts::NoMemory;
use web_variants::Page;
use web_worker::Handler;

/// The site. It keeps nothing from one request to the next.
#[derive(Drop)]
pub struct Site {
    router: Router<Route>,
    files: Store,
    greetings: Page,
}

impl Site {
    /// The site before its first request.
    pub fn new(alloc: Global) -> Result<Site> {
        Ok(Site {
            router: routes(alloc)?,
            files: new_store(alloc)?,
            greetings: new_greetings(alloc)?,
        })
    }

    /// The answer of the handler of a route.
    fn answer_route(
        &self,
        alloc: Global,
        found: &Found,
        request: HttpRequest<Plain>,
        payload: Payload<Marks>,
    ) -> Answer {
        if *request.method() == Method::OPTIONS {
            return Ok(options(alloc, found.route.allowed())?);
        }
        if !found.route.takes(request.method()) {
            return Ok(no_such_method(alloc, found.route)?);
        }
        match found.route {
            Route::Home => Ok(home(alloc)?),
            Route::Bookings => take_booking(alloc, &request, payload),
            Route::Booked => show_booking(alloc, &request),
            Route::Upload => list_parts(alloc, &request, payload),
            Route::Items => Ok(take_item(alloc, &request, payload)?),
            Route::Item => Ok(show_item(alloc, found.id.as_str())?),
            Route::Files => Ok(answer_file(alloc, &self.files, &request)?),
            Route::Greeting => Ok(answer_greeting(alloc, &self.greetings, &request)?),
            Route::Visits => Ok(count_visit(alloc, request)?),
            Route::Moved => Ok(moved(alloc, &request)?),
        }
    }

    /// The response to a request, without the headers that each one has.
    fn bare_reply(
        &self,
        alloc: Global,
        request: HttpRequest<Plain>,
        payload: Payload<Marks>,
    ) -> Result<Reply, NoMemory> {
        if *request.method() == Method::OPTIONS && request.path() == "*" {
            return options(alloc, HeaderValue::from_static("GET, HEAD, POST, OPTIONS"));
        }
        match find(alloc, &self.router, request.path())? {
            Some(found) => replied(alloc, self.answer_route(alloc, &found, request, payload)),
            None => no_such_page(alloc),
        }
    }
}

impl Handler<(HttpRequest<Plain>, Payload<Marks>)> for Site {
    type Output = Reply;

    type Future = Ready<Reply>;

    fn call(
        &mut self,
        alloc: Global,
        args: (HttpRequest<Plain>, Payload<Marks>),
    ) -> Result<Ready<Reply>, NoMemory> {
        let (request, payload) = args;
        let reply = self.bare_reply(alloc, request, payload)?;
        Ok(Ready::new(with_headers(reply)?))
    }
}
