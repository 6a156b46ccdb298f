//! The address that a request came from, as an argument.

ghost use Rattle.std.specs.Prelude.{◌≡◌};

use crate::peers::address::SocketAddr;
use std::fmt;

/// The address and port that a request came from. Behind a proxy that is the proxy's.
#[derive(Clone, Copy, Debug, PartialEq, Eq, PartialOrd, Ord, Hash)]
pub struct PeerAddr(pub SocketAddr);

impl PeerAddr {
    /// The address and port.
    pub fn into_inner(self) -> SocketAddr
        ensures { result ≡ self.0 }
    {
        self.0
    }
}

impl fmt::Display for PeerAddr {
    ghost use Rattle.std.specs.Prelude.{Some};
    ghost use Rattle.web_request.specs.AddressTexts.{socket_text};

    ghost output = { λ peer. Some (socket_text peer.0) };

    fn fmt<W: fmt::Write>(&self, f: &mut fmt::Formatter<W>) -> fmt::Result {
        write!(f, "{}", self.0)
    }
}

/// The head of a request has no peer address.
#[derive(Clone, Copy, Debug, PartialEq, Eq)]
pub struct MissingPeerAddr;

impl fmt::Display for MissingPeerAddr {
    ghost use Rattle.std.specs.Prelude.{Some, codes};

    ghost output = { λ _. Some (codes "Missing peer address") };

    fn fmt<W: fmt::Write>(&self, f: &mut fmt::Formatter<W>) -> fmt::Result {
        f.write_str("Missing peer address")
    }
}
