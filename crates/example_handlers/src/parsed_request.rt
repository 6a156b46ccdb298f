//! A request that was parsed elsewhere, as an exchange.
ghost use Rattle.std.specs.Prelude.{◌≡◌};
ghost use Rattle.http.specs.Request.{head_of, body_of};
ghost use Rattle.web_body.specs.declared.payload.Payload.TheVariants as payload;

use bytes::Bytes;
use http::Request;
use std::alloc::Global;
use web_body::Payload;
use web_request::{App, RequestHead, SocketAddr};
use web_worker::Exchange;

/// The exchange of a request whose whole body is there, from this address.
pub fn exchange_of<A: App>(
    alloc: Global,
    request: Request<Bytes>,
    peer: Option<SocketAddr>,
) -> Exchange<A>
    ensures method { result.parts.head.method ≡ (head_of request).method }
    ensures headers { result.parts.head.headers ≡ (head_of request).headers }
    ensures body { result.body ≡ payload.Whole (body_of request) }
{
    let (parts, body) = request.into_parts();
    let head = RequestHead {
        uri: parts.uri,
        method: parts.method,
        version: parts.version,
        headers: parts.headers,
        peer_addr: peer,
    };
    Exchange {
        head,
        params: Vec::new(alloc),
        layers: Vec::new(alloc),
        conn: None,
        local: None,
        body: Payload::Whole(body),
    }
}
