//! Where a request came from and was sent to.
ghost use Rattle.std.specs.Prelude.{◌≡◌, IfOk, Some, option_copied};
ghost use Rattle.std.specs.Option.{option_map};
ghost use Rattle.http_uri.specs.Uri.{uri_authority};
ghost use Rattle.web_forwarded.specs.Origins.{client_of};
ghost use Rattle.web_request.specs.AddressTexts.{ip_text};
ghost use Rattle.web_request.specs.Connections.{connection_of};
ghost use Rattle.web_request.specs.Head.{head_view};

use crate::config::AppConfig;
use crate::head::RequestHead;
use crate::peers::address::{IpAddr, SocketAddr};
use http_uri::Uri;
use std::alloc::Global;
use std::fmt::Write;
use std::marker::Model;
use web_forwarded::read_origin;
use web_texts::{Duplicate, NoMemory, Text};

/// The host and the scheme with which a client sent a request, and the addresses that it came from.
///
/// Host, scheme and the address of the client are what header fields say, which any client can
/// write: they can be trusted only where a proxy is known to set them.
#[derive(Drop)]
pub struct ConnectionInfo {
    host: Text,
    scheme: Text,
    peer: Option<Text>,
    client: Option<Text>,
}

impl Model for ConnectionInfo {
    ghost use Rattle.std.specs.Option.{option_or};
    ghost use Rattle.web_request.specs.Connections.{Connection};

    ghost Value = { Connection };

    ghost view = { λ c. record {
      host = c.host;
      scheme = c.scheme;
      peer = c.peer;
      client = option_or c.client c.peer;
    } };
}

impl ConnectionInfo {
    /// Reads the head of a request, by `web_forwarded`, under the settings of a worker. Returns
    /// `NoMemory` where allocation failed.
    pub fn new(
        alloc: Global,
        head: &RequestHead,
        config: &AppConfig,
    ) -> Result<ConnectionInfo, NoMemory>
        ensures { IfOk result (λ info. info ≡ connection_of (head_view head.now) config.now) }
    {
        let headers = &head.headers;
        let uri = &head.uri;
        let worker = config.host.as_str();
        let origin = read_origin(
            headers,
            authority_text(uri),
            uri.scheme_str(),
            worker,
            config.secure,
        );
        Ok(ConnectionInfo {
            host: Text::of(alloc, origin.host)?,
            scheme: Text::of(alloc, origin.scheme)?,
            peer: peer_text(alloc, head.peer_addr)?,
            client: client_text(alloc, origin.client)?,
        })
    }

    /// The host, with the port where one was sent: `host` of Forwarded, X-Forwarded-Host, Host, the
    /// authority of the target, or the worker's host.
    pub fn host(&self) -> &str
        ensures { result.now ≡ self.now.host }
    {
        self.host.as_str()
    }

    /// The scheme: `proto` of Forwarded, X-Forwarded-Proto, that of the target, or the worker's.
    pub fn scheme(&self) -> &str
        ensures { result.now ≡ self.now.scheme }
    {
        self.scheme.as_str()
    }

    /// The address that the request came from, without its port, if it is known.
    pub fn peer_addr(&self) -> Option<&str>
        ensures { option_copied result ≡ self.now.peer }
    {
        match &self.peer {
            Some(peer) => Some(peer.as_str()),
            None => None,
        }
    }

    /// As `peer_addr`.
    pub fn remote_addr(&self) -> Option<&str>
        ensures { option_copied result ≡ self.now.peer }
    {
        self.peer_addr()
    }

    /// The address of the client as proxies say it: `for` of Forwarded without its port, or
    /// X-Forwarded-For; where they say none, `peer_addr`.
    pub fn realip_remote_addr(&self) -> Option<&str>
        ensures { option_copied result ≡ self.now.client }
    {
        match &self.client {
            Some(client) => Some(client.as_str()),
            None => self.peer_addr(),
        }
    }
}

fn authority_text(uri: &Uri) -> Option<&str>
    ensures { option_copied result ≡ uri_authority uri.now }
{
    match uri.authority() {
        Some(authority) => Some(authority.as_str()),
        None => None,
    }
}

/// The length of the longest text of an address: eight groups of four digits, and colons between.
const LONGEST_ADDRESS: usize = 39;

fn ip_text(alloc: Global, ip: IpAddr) -> Result<Text, NoMemory>
    ensures { IfOk result (λ text. text ≡ ip_text ip) }
{
    let mut text = String::with_capacity(alloc, LONGEST_ADDRESS)?;
    write!(text, "{ip}")?;
    Ok(Text::from(text))
}

fn peer_text(alloc: Global, peer: Option<SocketAddr>) -> Result<Option<Text>, NoMemory>
    ensures { IfOk result (λ text. text ≡ option_map (λ address. ip_text address.ip) peer) }
{
    match peer {
        Some(address) => Ok(Some(ip_text(alloc, address.ip)?)),
        None => Ok(None),
    }
}

fn client_text(alloc: Global, client: Option<&str>) -> Result<Option<Text>, NoMemory>
    ensures { IfOk result (λ text. text ≡ option_copied client.entry) }
{
    match client {
        Some(client) => Ok(Some(Text::of(alloc, client)?)),
        None => Ok(None),
    }
}

impl Duplicate for ConnectionInfo {
    fn duplicate(&self, alloc: Global) -> Result<ConnectionInfo, NoMemory> {
        Ok(ConnectionInfo {
            host: self.host.duplicate(alloc)?,
            scheme: self.scheme.duplicate(alloc)?,
            peer: self.peer.duplicate(alloc)?,
            client: self.client.duplicate(alloc)?,
        })
    }
}
