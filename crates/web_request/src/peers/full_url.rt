//! The URL of a request.
ghost use Rattle.std.specs.Prelude.{◌≡◌, IfOk, None, string_bytes};
ghost use Rattle.url.specs.Parser.{parse_url};
ghost use Rattle.web_request.specs.FullUrls.{ReadsUrl, url_target, url_text};
ghost use Rattle.web_request.specs.Head.{uri_view};

use crate::peers::connection_info::ConnectionInfo;
use http_uri::Uri;
use std::alloc::Global;
use url::{ParseError, Url};
use web_texts::{Fail, NoMemory};

/// Reads the URL of this scheme and host, and of the path and query of a target. Want of room, from
/// some 4 GB on, is want of memory.
pub fn read_full_url(
    alloc: Global,
    info: &ConnectionInfo,
    uri: &Uri,
) -> Result<Url, Fail<ParseError>>
    ensures { ReadsUrl result (parse_url None
        (url_text info.now.scheme info.now.host (url_target (uri_view uri.now)))) }
{
    let text = url_text(alloc, info.scheme(), info.host(), url_target(uri))?;
    read_url(alloc, text.as_str())
}

fn read_url(alloc: Global, text: &str) -> Result<Url, Fail<ParseError>>
    ensures { ReadsUrl result (parse_url None text.now) }
{
    match Url::parse(alloc, text) {
        Ok(url) => Ok(url),
        Err(ParseError::OutOfMemory) => Err(Fail::NoMemory),
        Err(ParseError::Overflow) => Err(Fail::NoMemory),
        Err(cause) => Err(Fail::Of(cause)),
    }
}

fn url_text(alloc: Global, scheme: &str, host: &str, target: &str) -> Result<String, NoMemory>
    ensures { IfOk result (λ text.
        string_bytes text ≡ url_text scheme.now host.now target.now) }
{
    Ok(format!(in alloc; "{scheme}://{host}{target}")?)
}

/// The path with the query, or `/` where the target has no path.
fn url_target(uri: &Uri) -> &str
    ensures { result.now ≡ url_target (uri_view uri.now) }
{
    match uri.path_and_query() {
        Some(target) => target.as_str(),
        None => "/",
    }
}
