//! The request as an argument.
use crate::from_request::FromRequest;
use crate::ready::Ready;
use std::alloc::Global;
use web_body::Payload;
use web_reply::Error;
use web_request::{App, HttpRequest, NoMemory};

/// The request itself, duplicated, at the first poll. It is never refused, and the payload is left.
impl<A: App> FromRequest<A> for HttpRequest<A> {
    ghost use Rattle.std.specs.Prelude.{⊤};
    ghost use Rattle.web_extract.specs.HeadArguments.{AllowsNow, IsRequest, request_some};
    ghost use Rattle.web_extract.specs.SomeAnswer.{itself};

    type Error = Error;

    type Future = Ready<Result<HttpRequest<A>, Error>>;

    ghost means = { λ q m rest n x. AllowsNow (IsRequest q) m rest n x };

    ghost leaves = { λ _. ⊤ };

    ghost some = { λ q m. request_some q m };

    ghost converted = { itself };

    fn from_request(
        alloc: Global,
        req: &HttpRequest<A>,
        _payload: &mut Payload<A::Source>,
    ) -> Result<Ready<Result<HttpRequest<A>, Error>>, NoMemory> {
        Ok(Ready::new(Ok(req.duplicate(alloc)?)))
    }
}
