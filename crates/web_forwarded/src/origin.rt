//! The host, the scheme and the client of a request.
ghost use Rattle.std.specs.Prelude.{◌≡◌, codes, option_copied};
ghost use Rattle.std.specs.Option.{option_or};
ghost use Rattle.web_forwarded.specs.FirstItems.{first_item};
ghost use Rattle.web_texts.specs.HeaderTexts.{first_text};
ghost use Rattle.web_forwarded.specs.Origins.{client_by, client_of, default_scheme, host_by};
ghost use Rattle.web_forwarded.specs.Origins.{host_of, scheme_by, scheme_of};

use crate::addresses::bare_address;
use crate::fields::first_item;
use crate::forwarded_pairs::Forwarded;
use http_header::{HOST, HeaderMap, HeaderName, HeaderValue};
use web_texts::first_text;

/// Where a request came from and was sent to, as its header fields say it.
#[derive(Drop)]
pub struct Origin<'a> {
    /// The host to which the client sent the request.
    pub host: &'a str,
    /// The scheme with which the client sent the request.
    pub scheme: &'a str,
    /// The address of the client behind the proxies, as they say it.
    pub client: Option<&'a str>,
}

/// Reads the fields that proxies set, Forwarded once and the others where it says nothing.
///
/// The host is `host` of Forwarded; else X-Forwarded-Host; else Host; else the authority of the
/// target; else the host that the worker serves. The scheme is `proto` of Forwarded; else
/// X-Forwarded-Proto; else the scheme of the target; else `https` where the worker's connections
/// are encrypted, and `http` where they are not. The client is `for` of Forwarded without its port;
/// else X-Forwarded-For, with the port that stands there.
pub fn read_origin<'a>(
    headers: &'a HeaderMap<HeaderValue>,
    authority: Option<&'a str>,
    scheme: Option<&'a str>,
    host: &'a str,
    secure: bool,
) -> Origin<'a>
    ensures host { result.host.now
        ≡ host_of headers.now (option_copied authority.entry) host.now }
    ensures scheme { result.scheme.now
        ≡ scheme_of headers.now (option_copied scheme.entry) secure }
    ensures client { option_copied result.client ≡ client_of headers.now }
{
    let said = Forwarded::read(headers);
    Origin {
        host: host_name(said.host, headers, authority, host),
        scheme: scheme_name(said.scheme, headers, scheme, secure),
        client: client_address(said.client, headers),
    }
}

fn scheme_name<'a>(
    forwarded: Option<&'a str>,
    headers: &'a HeaderMap<HeaderValue>,
    scheme: Option<&'a str>,
    secure: bool,
) -> &'a str
    ensures { result.now ≡ scheme_by (option_copied forwarded.entry) headers.now
        (option_copied scheme.entry) secure }
{
    let said = match forwarded {
        Some(text) => Some(text),
        None => forwarded_proto(headers),
    };
    either(said, scheme).unwrap_or(default_scheme(secure))
}

fn default_scheme(secure: bool) -> &'static str
    ensures { result.now ≡ default_scheme secure }
{
    if secure { "https" } else { "http" }
}

fn host_name<'a>(
    forwarded: Option<&'a str>,
    headers: &'a HeaderMap<HeaderValue>,
    authority: Option<&'a str>,
    host: &'a str,
) -> &'a str
    ensures { result.now ≡ host_by (option_copied forwarded.entry) headers.now
        (option_copied authority.entry) host.now }
{
    if let Some(text) = forwarded {
        return text;
    }
    if let Some(text) = forwarded_host(headers) {
        return text;
    }
    either(host_field(headers), authority).unwrap_or(host)
}

fn client_address<'a>(
    forwarded: Option<&'a str>,
    headers: &'a HeaderMap<HeaderValue>,
) -> Option<&'a str>
    ensures { option_copied result ≡ client_by (option_copied forwarded.entry) headers.now }
{
    match forwarded {
        Some(node) => Some(bare_address(node)),
        None => forwarded_for(headers),
    }
}

fn forwarded_proto(headers: &HeaderMap<HeaderValue>) -> Option<&str>
    ensures { option_copied result ≡ first_item headers.now (codes "x-forwarded-proto") }
{
    first_item(headers, &HeaderName::from_static("x-forwarded-proto"))
}

fn forwarded_host(headers: &HeaderMap<HeaderValue>) -> Option<&str>
    ensures { option_copied result ≡ first_item headers.now (codes "x-forwarded-host") }
{
    first_item(headers, &HeaderName::from_static("x-forwarded-host"))
}

fn forwarded_for(headers: &HeaderMap<HeaderValue>) -> Option<&str>
    ensures { option_copied result ≡ first_item headers.now (codes "x-forwarded-for") }
{
    first_item(headers, &HeaderName::from_static("x-forwarded-for"))
}

fn host_field(headers: &HeaderMap<HeaderValue>) -> Option<&str>
    ensures { option_copied result ≡ first_text headers.now (codes "host") }
{
    first_text(headers, &HOST)
}

/// The first text that is there.
fn either<'a>(first: Option<&'a str>, second: Option<&'a str>) -> Option<&'a str>
    ensures { option_copied result
        ≡ option_or (option_copied first.entry) (option_copied second.entry) }
{
    match first {
        Some(text) => Some(text),
        None => second,
    }
}
