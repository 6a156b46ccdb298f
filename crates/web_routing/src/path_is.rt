//! Requests for one path, or below one, or by one method.
ghost use Rattle.std.specs.Prelude.{◌≡◌};
ghost use Rattle.web_routing.specs.RequestPaths.{begins_below, is_below};

use crate::route::Choose;
use http::Method;
use web_request::{App, HttpRequest};

/// Takes the requests for this path, which is compared as it came, without the query.
#[derive(Drop)]
pub struct PathIs(pub &'static str);

impl<A: App> Choose<A> for PathIs {
    ghost use Rattle.std.specs.Str.{bytes_eq};
    ghost use Rattle.web_request.specs.Head.{head_path};

    ghost chosen = { λ c q. bytes_eq (head_path q.head) c.0.now };

    fn takes(&self, request: &HttpRequest<A>) -> bool {
        request.path().as_bytes() == self.0.as_bytes()
    }
}

/// Whether the rest of a path behind a prefix is none, or begins with a slash.
fn begins_below(rest: &[u8]) -> bool
    ensures { result ≡ begins_below rest.now }
{
    match rest {
        [] => true,
        [first, ..] => *first == b'/',
    }
}

/// Whether a path is this one, or stands below it.
fn is_below(path: &[u8], above: &[u8]) -> bool
    ensures { result ≡ is_below path.now above.now }
{
    match path.strip_prefix(above) {
        Some(rest) => begins_below(rest),
        None => false,
    }
}

/// Takes the requests for this path and those below it: `/api` takes `/api` and `/api/items`, and
/// not `/apis`. It has no slash at its end.
#[derive(Drop)]
pub struct PathBelow(pub &'static str);

impl<A: App> Choose<A> for PathBelow {
    ghost use Rattle.web_request.specs.Head.{head_path};
    ghost use Rattle.web_routing.specs.RequestPaths.{is_below};

    ghost chosen = { λ c q. is_below (head_path q.head) c.0.now };

    fn takes(&self, request: &HttpRequest<A>) -> bool {
        is_below(request.path().as_bytes(), self.0.as_bytes())
    }
}

/// Takes the requests by this method.
#[derive(Drop)]
pub struct MethodIs(pub Method);

impl<A: App> Choose<A> for MethodIs {
    ghost use Rattle.std.specs.Str.{bytes_eq};

    ghost chosen = { λ c q. bytes_eq q.head.method c.0 };

    fn takes(&self, request: &HttpRequest<A>) -> bool {
        *request.method() == self.0
    }
}

/// Takes the requests that both take.
#[derive(Drop)]
pub struct Both<C, D>(pub C, pub D);

impl<A: App, C: Choose<A>, D: Choose<A>> Choose<A> for Both<C, D> {
    ghost use Rattle.std.specs.Prelude.{◌&&◌};

    ghost chosen = { λ c q. C.chosen c.0 q && D.chosen c.1 q };

    fn takes(&self, request: &HttpRequest<A>) -> bool {
        self.0.takes(request) && self.1.takes(request)
    }
}

/// Takes the requests that one of both takes, as those by GET or HEAD.
#[derive(Drop)]
pub struct Any<C, D>(pub C, pub D);

impl<A: App, C: Choose<A>, D: Choose<A>> Choose<A> for Any<C, D> {
    ghost use Rattle.std.specs.Prelude.{◌||◌};

    ghost chosen = { λ c q. C.chosen c.0 q || D.chosen c.1 q };

    fn takes(&self, request: &HttpRequest<A>) -> bool {
        self.0.takes(request) || self.1.takes(request)
    }
}
