//! Network addresses.

use std::fmt;
use std::net::{Ipv4Addr, Ipv6Addr};

/// An IPv4 or IPv6 address. Addresses of IPv4 are ordered before those of IPv6.
#[derive(Clone, Copy, Debug, PartialEq, Eq, PartialOrd, Ord, Hash)]
pub enum IpAddr {
    /// The four bytes in network order (RFC 791, section 3.1).
    V4([u8; 4]),
    /// The eight groups of 16 bits in network order (RFC 4291, section 2.2).
    V6([u16; 8]),
}

/// Prints IPv4 in decimal with dots, and IPv6 in lower-case hexadecimal with colons (RFC 5952):
/// the first longest run of two or more zero groups is `::`, and an address of IPv4 that is mapped
/// into IPv6 ends in its decimal form.
impl fmt::Display for IpAddr {
    ghost use Rattle.std.specs.Prelude.{Some};
    ghost use Rattle.web_request.specs.AddressTexts.{ip_text};

    ghost output = { λ ip. Some (ip_text ip) };

    fn fmt<W: fmt::Write>(&self, f: &mut fmt::Formatter<W>) -> fmt::Result {
        match *self {
            IpAddr::V4(bytes) => {
                let ip = Ipv4Addr::from_octets(bytes);
                write!(f, "{ip}")
            }
            IpAddr::V6(groups) => {
                let ip = Ipv6Addr::from_segments(groups);
                write!(f, "{ip}")
            }
        }
    }
}

impl From<std::net::IpAddr> for IpAddr {
    ghost use Rattle.std.specs.Prelude.{◌≡◌};
    ghost use Rattle.web_request.specs.NetAddresses.{ip_of};

    ghost from_gives = { λ ip own. own ≡ ip_of ip };

    fn from(ip: std::net::IpAddr) -> IpAddr {
        match ip {
            std::net::IpAddr::V4(ip) => IpAddr::V4(ip.octets()),
            std::net::IpAddr::V6(ip) => IpAddr::V6(ip.segments()),
        }
    }
}

/// An IP address and a port.
#[derive(Clone, Copy, Debug, PartialEq, Eq, PartialOrd, Ord, Hash)]
pub struct SocketAddr {
    /// The address.
    pub ip: IpAddr,
    /// The port.
    pub port: u16,
}

/// The address and the port of an address of std. The flow information and the scope of one of
/// IPv6 are dropped.
impl From<std::net::SocketAddr> for SocketAddr {
    ghost use Rattle.std.specs.Prelude.{◌≡◌};
    ghost use Rattle.web_request.specs.NetAddresses.{socket_of};

    ghost from_gives = { λ address own. own ≡ socket_of address };

    fn from(address: std::net::SocketAddr) -> SocketAddr {
        SocketAddr {
            ip: IpAddr::from(address.ip()),
            port: address.port(),
        }
    }
}

/// Prints address and port with a colon between them, and an address of IPv6 in brackets.
impl fmt::Display for SocketAddr {
    ghost use Rattle.std.specs.Prelude.{Some};
    ghost use Rattle.web_request.specs.AddressTexts.{socket_text};

    ghost output = { λ address. Some (socket_text address) };

    fn fmt<W: fmt::Write>(&self, f: &mut fmt::Formatter<W>) -> fmt::Result {
        match self.ip {
            IpAddr::V4(_) => write!(f, "{}:{}", self.ip, self.port),
            IpAddr::V6(_) => write!(f, "[{}]:{}", self.ip, self.port),
        }
    }
}
