//! Where a request came from and was sent to, as an argument.
use crate::from_request::FromRequest;
use crate::never::Never;
use crate::ready::Ready;
use std::alloc::Global;
use web_body::Payload;
use web_request::{App, ConnectionInfo, HttpRequest, NoMemory};

/// What the head says of the connection, at the first poll. It is computed anew and not kept with
/// the request. It is never refused, and the payload is left.
impl<A: App> FromRequest<A> for ConnectionInfo {
    ghost use Rattle.std.specs.Prelude.{Ok, ⊤};
    ghost use Rattle.web_request.specs.Connections.{connection_of};
    ghost use Rattle.web_extract.specs.HeadArguments.{MeansNow, now_some};
    ghost use Rattle.web_extract.specs.Never.{never_converted};

    type Error = Never;

    type Future = Ready<Result<ConnectionInfo, Never>>;

    ghost means = { λ q m rest n x.
        MeansNow (Ok (connection_of q.head q.config)) m rest n x };

    ghost leaves = { λ _. ⊤ };

    ghost some = { λ q m. now_some (Ok (connection_of q.head q.config)) m };

    ghost converted = { never_converted };

    fn from_request(
        alloc: Global,
        req: &HttpRequest<A>,
        _payload: &mut Payload<A::Source>,
    ) -> Result<Ready<Result<ConnectionInfo, Never>>, NoMemory> {
        let info = ConnectionInfo::new(alloc, req.head(), req.app_config())?;
        Ok(Ready::new(Ok(info)))
    }
}
