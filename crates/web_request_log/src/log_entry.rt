//! The text of a request for logs.
ghost use Rattle.std.specs.Prelude.{◌≡◌, ◌++◌, IfOk, OnOk, flat_map, string_bytes};
ghost use Rattle.web_request_log.specs.LogEntries.{log_text, param_line, query_line};

use crate::header_lines::push_headers;
use crate::version_name::version_name;
use http::Version;
use http_header::{HeaderMap, HeaderValue};
use std::alloc::Global;
use web_texts::{NoMemory, Pair, Text};

/// What a log says of a request.
#[derive(Drop)]
pub struct LogEntry<'a> {
    /// The name of its type, as `HttpRequest`.
    pub kind: &'a str,
    pub version: Version,
    pub method: &'a str,
    pub path: &'a str,
    pub query: &'a str,
    pub params: &'a [Pair],
    pub headers: &'a HeaderMap<HeaderValue>,
}

fn push_query(out: &mut String, query: &str) -> Result<(), NoMemory>
    ensures { OnOk result (string_bytes out.new ≡ string_bytes out.old ++ query_line query.now) }
{
    if query.is_empty() {
        return Ok(());
    }
    out.push_str("  query: ?")?;
    out.push_str(query)?;
    Ok(out.push_str("\n")?)
}

fn push_param(out: &mut String, pair: &Pair) -> Result<(), NoMemory>
    ensures { OnOk result (string_bytes out.new ≡ string_bytes out.old ++ param_line pair.now) }
{
    out.push_str("  params: ")?;
    out.push_str(pair.name())?;
    out.push_str("=")?;
    out.push_str(pair.value())?;
    Ok(out.push_str("\n")?)
}

fn push_params(out: &mut String, params: &[Pair]) -> Result<(), NoMemory>
    ensures { OnOk result (string_bytes out.new
        ≡ string_bytes out.old ++ flat_map param_line params.now) }
{
    for pair in params {
        push_param(out, pair)?;
    }
    Ok(())
}

/// The text of a request for logs: a line of its type, version, method and path; one of a query
/// that is not empty; one of each parameter; and one of each header field, sorted by the names. The
/// values of Authorization, Proxy-Authorization and Cookie are left out; a byte that is no header
/// text is shown by its number. Returns `NoMemory` where allocation failed.
pub fn describe(alloc: Global, request: &LogEntry<'_>) -> Result<Text, NoMemory>
    ensures { IfOk result (λ text. text ≡ log_text (record {
      kind = request.now.kind.now;
      version = request.now.version;
      method = request.now.method.now;
      path = request.now.path.now;
      query = request.now.query.now;
      params = request.now.params.now;
      headers = request.now.headers.now;
    })) }
{
    let version = version_name(request.version);
    let mut out = format!(in alloc;
        "{} {version} {}:{}\n",
        request.kind, request.method, request.path
    )?;
    push_query(&mut out, request.query)?;
    push_params(&mut out, request.params)?;
    out.push_str("  headers:\n")?;
    push_headers(alloc, &mut out, request.headers)?;
    Ok(Text::from(out))
}
