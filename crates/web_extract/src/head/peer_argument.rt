//! The address that a request came from, as an argument.
use crate::from_request::FromRequest;
use crate::ready::Ready;
use std::alloc::Global;
use web_body::Payload;
use web_request::{App, HttpRequest, MissingPeerAddr, NoMemory, PeerAddr};

/// The peer address of the head, at the first poll. Refused with `MissingPeerAddr` where the head
/// has none. The payload is left, and nothing is allocated.
impl<A: App> FromRequest<A> for PeerAddr {
    ghost use Rattle.std.specs.Prelude.{⊤};
    ghost use Rattle.web_extract.specs.HeadArguments.{MeansNow, now_some};
    ghost use Rattle.web_extract.specs.PeerArgument.{missing_peer_converted, peer_or_missing};

    type Error = MissingPeerAddr;

    type Future = Ready<Result<PeerAddr, MissingPeerAddr>>;

    ghost means = { λ q m rest n x. MeansNow (peer_or_missing q.head.peer) m rest n x };

    ghost needs_no_memory = { λ _. ⊤ };

    ghost leaves = { λ _. ⊤ };

    ghost some = { λ q m. now_some (peer_or_missing q.head.peer) m };

    ghost converted = { missing_peer_converted };

    fn from_request(
        _alloc: Global,
        req: &HttpRequest<A>,
        _payload: &mut Payload<A::Source>,
    ) -> Result<Ready<Result<PeerAddr, MissingPeerAddr>>, NoMemory> {
        match req.peer_addr() {
            Some(address) => Ok(Ready::new(Ok(PeerAddr(address)))),
            None => Ok(Ready::new(Err(MissingPeerAddr))),
        }
    }
}
