//! The request target as an argument.
use crate::from_request::FromRequest;
use crate::never::Never;
use crate::ready::Ready;
use http_uri::Uri;
use std::alloc::Global;
use web_body::Payload;
use web_request::{App, HttpRequest, NoMemory};

/// A copy of the request target, at the first poll. It is never refused, and the payload is left.
impl<A: App> FromRequest<A> for Uri {
    ghost use Rattle.std.specs.Prelude.{⊤};
    ghost use Rattle.web_extract.specs.HeadArguments.{MeansUri, uri_some};
    ghost use Rattle.web_extract.specs.Never.{never, never_converted};

    type Error = Never;

    type Future = Ready<Result<Uri, Never>>;

    ghost means = { λ q m rest n x. MeansUri q.head m rest n x };

    ghost leaves = { λ _. ⊤ };

    ghost some = { λ q m. uri_some q.head never m };

    ghost converted = { never_converted };

    fn from_request(
        _alloc: Global,
        req: &HttpRequest<A>,
        _payload: &mut Payload<A::Source>,
    ) -> Result<Ready<Result<Uri, Never>>, NoMemory> {
        Ok(Ready::new(Ok(req.uri().clone()?)))
    }
}
