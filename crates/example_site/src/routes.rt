//! What the site has under which path.
use http::Method;
use http_header::HeaderValue;
use matchit::{InsertError, Router};
use percent_encoding::percent_decode;
use std::alloc::Global;
use web_texts::{NoMemory, Text};

/// What stands under a path.
#[derive(Clone, Copy, Debug, PartialEq, Eq)]
pub enum Route {
    Home,
    Bookings,
    Booked,
    Upload,
    Items,
    /// One item, whose parameter is `id`.
    Item,
    Files,
    Greeting,
    Visits,
    Moved,
}

impl Route {
    /// The methods that it takes, as the header Allow lists them.
    pub fn allowed(self) -> HeaderValue {
        match self {
            Route::Bookings | Route::Upload | Route::Items => {
                HeaderValue::from_static("POST, OPTIONS")
            }
            _ => HeaderValue::from_static("GET, HEAD, OPTIONS"),
        }
    }

    /// Whether it takes this method.
    pub fn takes(self, method: &Method) -> bool {
        match self {
            Route::Bookings | Route::Upload | Route::Items => *method == Method::POST,
            _ => *method == Method::GET || *method == Method::HEAD,
        }
    }
}

/// A route that was found, with its parameter `id`, which is empty where it has none.
#[derive(Drop)]
pub struct Found {
    pub route: Route,
    pub id: Text,
}

/// All routes.
pub fn routes(alloc: Global) -> Result<Router<Route>, InsertError> {
    let mut router = Router::new(alloc);
    router.insert("/", Route::Home)?;
    router.insert("/bookings", Route::Bookings)?;
    router.insert("/booked", Route::Booked)?;
    router.insert("/upload", Route::Upload)?;
    router.insert("/items", Route::Items)?;
    router.insert("/items/{id}", Route::Item)?;
    router.insert("/files/{name}", Route::Files)?;
    router.insert("/greeting", Route::Greeting)?;
    router.insert("/visits", Route::Visits)?;
    router.insert("/old", Route::Moved)?;
    Ok(router)
}

/// A parameter as it is meant, where it spells UTF-8.
fn decoded(alloc: Global, parameter: &str) -> Result<Option<Text>, NoMemory> {
    let mut bytes = Vec::new(alloc);
    percent_decode(parameter.as_bytes()).append_to(&mut bytes)?;
    match String::from_utf8(bytes) {
        Ok(text) => Ok(Some(Text::from(text))),
        Err(_) => Ok(None),
    }
}

/// The route of a path, or `None`.
pub fn find(alloc: Global, router: &Router<Route>, path: &str) -> Result<Option<Found>, NoMemory> {
    let Ok(found) = router.at(path) else {
        return Ok(None);
    };
    let id = decoded(alloc, found.params.get("id").unwrap_or(""))?;
    Ok(id.map(|id| Found {
        route: *found.value,
        id,
    }))
}
