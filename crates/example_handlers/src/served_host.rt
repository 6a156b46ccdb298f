//! A middleware that asks whether a request was sent to a host that is served.
ghost use Rattle.std.specs.Prelude.{◌≡◌, IfOk};
ghost use Rattle.std.specs.Str.{bytes_eq};
ghost use Rattle.web_request.specs.KeptValues.{known_connection};

use std::alloc::Global;
use web_request::{App, NoMemory};
use web_service::ServiceRequest;

/// Whether a client sent the request to this host, as its proxies say. The request keeps what was
/// found. Returns `NoMemory` where an allocation failed.
pub fn is_served<A: App>(
    alloc: Global,
    service: &mut ServiceRequest<A>,
    host: &str,
) -> Result<bool, NoMemory>
    ensures { IfOk result (λ is_served.
        is_served ≡ bytes_eq (known_connection service.old.request).host host.now) }
{
    let info = service.connection_info(alloc)?;
    Ok(info.host() == host)
}
