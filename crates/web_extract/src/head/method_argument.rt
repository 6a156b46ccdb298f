//! The method as an argument.
use crate::from_request::FromRequest;
use crate::never::Never;
use crate::ready::Ready;
use http::Method;
use std::alloc::Global;
use web_body::Payload;
use web_request::{App, HttpRequest, NoMemory};

/// A copy of the method, at the first poll. It is never refused, and the payload is left.
impl<A: App> FromRequest<A> for Method {
    ghost use Rattle.std.specs.Prelude.{Ok, ⊤};
    ghost use Rattle.web_extract.specs.HeadArguments.{MeansNow, now_some};
    ghost use Rattle.web_extract.specs.Never.{never_converted};

    type Error = Never;

    type Future = Ready<Result<Method, Never>>;

    ghost means = { λ q m rest n x. MeansNow (Ok q.head.method) m rest n x };

    ghost leaves = { λ _. ⊤ };

    ghost some = { λ q m. now_some (Ok q.head.method) m };

    ghost converted = { never_converted };

    fn from_request(
        _alloc: Global,
        req: &HttpRequest<A>,
        _payload: &mut Payload<A::Source>,
    ) -> Result<Ready<Result<Method, Never>>, NoMemory> {
        Ok(Ready::new(Ok(req.method().clone()?)))
    }
}
