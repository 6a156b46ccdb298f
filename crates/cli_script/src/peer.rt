//! The address of a `peer` line.
ghost use Rattle.std.specs.Prelude.{◌≡◌, is_some};
ghost use Rattle.std.specs.List.{slice_split};
ghost use Rattle.web_texts.specs.Bytes.{is_dot};
ghost use Rattle.cli_script.specs.Acceptance.{Accepts};
ghost use Rattle.cli_script.specs.LineFaults.{unless};
ghost use Rattle.cli_script.specs.Peers.{line_peer, octet_of, octets_of, peer_of};
ghost use Rattle.cli_script.specs.declared.reason.LineFault.TheVariants.{BadPeer};

use crate::reason::LineFault;
use web_request::{IpAddr, SocketAddr};
use web_texts::{Fail, number_of, split_once_at};

/// The address of a `peer` line, whose argument is four numbers of at most 255 with dots between, a
/// colon, and a port.
pub(crate) fn read_peer(text: &[u8]) -> Result<SocketAddr, Fail<LineFault>>
    ensures { Accepts result (unless (is_some (peer_of text.now)) BadPeer)
        (λ peer. peer ≡ line_peer text.now) }
{
    match peer_of(text) {
        Some(peer) => Ok(peer),
        None => Err(Fail::Of(LineFault::BadPeer)),
    }
}

fn peer_of(text: &[u8]) -> Option<SocketAddr>
    ensures { result ≡ peer_of text.now }
{
    let (address, port) = split_once_at(text, b':')?;
    let octets = octets_of(address)?;
    let port = number_of(port, 65_535)?;
    Some(SocketAddr {
        ip: IpAddr::V4(octets),
        port: port as u16,
    })
}

fn octets_of(text: &[u8]) -> Option<[u8; 4]>
    ensures { result ≡ octets_of (slice_split is_dot text.now) }
{
    let (first, rest) = split_once_at(text, b'.')?;
    let (second, rest) = split_once_at(rest, b'.')?;
    let (third, fourth) = split_once_at(rest, b'.')?;
    Some([
        octet_of(first)?,
        octet_of(second)?,
        octet_of(third)?,
        octet_of(fourth)?,
    ])
}

fn octet_of(text: &[u8]) -> Option<u8>
    ensures { result ≡ octet_of text.now }
{
    match number_of(text, 255) {
        Some(number) => Some(number as u8),
        None => None,
    }
}
