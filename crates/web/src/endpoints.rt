//! Routes by the usual methods.
ghost use Rattle.std.specs.Prelude.{◌≡◌, codes};

use http::Method;
use web_routing::{HandlerService, Immediate, MethodPattern};
use web_texts::Fail;

/// The service that calls this closure with extractors of each request, as `Immediate` does.
pub fn handler<Args, T: Drop, E: Drop, F>(closure: F) -> HandlerService<Args, Immediate<F>>
where
    F: Fn(Args) -> Result<T, Fail<E>>,
    ensures { result.handler.0 ≡ closure }
{
    HandlerService::immediate(closure)
}

/// GET for the paths that this pattern matches. It serves HEAD too, if no other route does.
///
/// ```
/// let items = get("/items/{id}").to(move |id| show(alloc, id));
/// ```
pub fn get(pattern: &'static str) -> MethodPattern
    ensures method { result.method ≡ codes "GET" }
    ensures pattern { result.pattern ≡ pattern.now }
{
    MethodPattern::new(Method::GET, pattern)
}

/// POST for the paths that this pattern matches.
pub fn post(pattern: &'static str) -> MethodPattern
    ensures method { result.method ≡ codes "POST" }
    ensures pattern { result.pattern ≡ pattern.now }
{
    MethodPattern::new(Method::POST, pattern)
}

/// PUT for the paths that this pattern matches.
pub fn put(pattern: &'static str) -> MethodPattern
    ensures method { result.method ≡ codes "PUT" }
    ensures pattern { result.pattern ≡ pattern.now }
{
    MethodPattern::new(Method::PUT, pattern)
}

/// PATCH for the paths that this pattern matches.
pub fn patch(pattern: &'static str) -> MethodPattern
    ensures method { result.method ≡ codes "PATCH" }
    ensures pattern { result.pattern ≡ pattern.now }
{
    MethodPattern::new(Method::PATCH, pattern)
}

/// DELETE for the paths that this pattern matches.
pub fn delete(pattern: &'static str) -> MethodPattern
    ensures method { result.method ≡ codes "DELETE" }
    ensures pattern { result.pattern ≡ pattern.now }
{
    MethodPattern::new(Method::DELETE, pattern)
}
