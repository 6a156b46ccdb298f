//! An exchange of a script, and what an `exchange` line asks for.
ghost use Rattle.std.specs.Prelude.{◌≡◌, Some};
ghost use Rattle.cli_script.specs.Acceptance.{Accepts};
ghost use Rattle.cli_script.specs.LineArguments.{has_space, is_method, request_fault};
ghost use Rattle.cli_script.specs.LineArguments.{target_fault};
ghost use Rattle.cli_script.specs.LineFaults.{unless};
ghost use Rattle.cli_script.specs.Reader.{bare_exchange, new_exchange};
ghost use Rattle.web_request.specs.Head.{uri_view};
ghost use Rattle.cli_script.specs.Targets.{target_of};
ghost use Rattle.cli_script.specs.declared.reason.LineFault.TheVariants.{BadExchange};

use crate::layer::LayerSettings;
use crate::reason::LineFault;
use bytes::Bytes;
use http::Method;
use http::method::MethodError;
use http_header::{HeaderMap, HeaderName, HeaderValue};
use http_uri::{Uri, UriError};
use std::alloc::Global;
use std::marker::Model;
use web_request::{Mark, SocketAddr};
use web_texts::{Fail, NoMemory, Pair, split_once_at};

/// An exchange that a script asks for.
#[derive(Drop)]
pub struct ScriptedExchange {
    /// RFC 9110, section 9.1.
    pub method: Method,
    /// The target (RFC 9112, section 3.2), as `http_uri` reads it.
    pub uri: Uri,
    /// The header fields, in the order of their lines. There are at most 1,024.
    pub headers: HeaderMap<HeaderValue>,
    /// The parameters, as a router would find them, in the order of their lines.
    pub params: Vec<Pair>,
    /// What the `layer` lines set, in the order of their lines: the outermost layer first.
    pub layers: Vec<LayerSettings>,
    /// The marks of the body. In those of a script no piece is empty, and a fault is the last mark.
    pub marks: Vec<Mark>,
    /// The address of the last `peer` line: where the request came from.
    pub peer: Option<SocketAddr>,
    /// The number of the last `local` line: the data of the request.
    pub local: Option<u64>,
    /// The number of the last `conn` line: the data of the connection.
    pub conn: Option<u64>,
}

impl Model for ScriptedExchange {
    ghost use Rattle.cli_script.specs.ScriptedView.{ScriptedExchangeView};
    ghost use Rattle.web_request.specs.Head.{uri_view};

    ghost Value = { ScriptedExchangeView };

    ghost view = { λ e. record {
      method = e.method;
      target = uri_view e.uri;
      headers = e.headers;
      params = e.params.items;
      layers = e.layers.items;
      marks = e.marks.items;
      peer = e.peer;
      local = e.local;
      conn = e.conn;
    } };
}

fn has_space(text: &[u8]) -> bool
    ensures { result ≡ has_space text.now }
{
    text.contains(&b' ')
}

/// The method that is written so, if the text is a token.
fn read_method(alloc: Global, text: &[u8]) -> Result<Method, Fail<LineFault>>
    ensures { Accepts result (unless (is_method text.now) BadExchange)
        (λ method. method ≡ text.now) }
{
    match Method::from_bytes(alloc, text) {
        Ok(method) => Ok(method),
        Err(MethodError::Invalid) => Err(Fail::Of(LineFault::BadExchange)),
        Err(MethodError::OutOfMemory) => Err(Fail::NoMemory),
    }
}

/// The target that is written so, if the text has the form of one. It is not copied.
fn read_target(text: Bytes) -> Result<Uri, Fail<LineFault>>
    ensures { Accepts result (target_fault (target_of text))
        (λ uri. target_of text ≡ Some (uri_view uri)) }
{
    match Uri::from_shared(text) {
        Ok(uri) => Ok(uri),
        Err(UriError::Invalid(_)) => Err(Fail::Of(LineFault::BadExchange)),
        Err(UriError::OutOfMemory) => Err(Fail::NoMemory),
    }
}

/// What an `exchange` line asks for.
#[derive(Drop)]
pub struct RequestLine {
    pub method: Method,
    pub uri: Uri,
}

/// The method and the target of the argument of an `exchange` line, with one space between. The
/// target is what is left of the argument, which is not copied.
pub fn read_request(alloc: Global, text: Bytes) -> Result<RequestLine, Fail<LineFault>>
    ensures { Accepts result (request_fault text)
        (λ line. bare_exchange line.method (uri_view line.uri) ≡ new_exchange text) }
{
    let Some((method, target)) = split_once_at(text.as_slice(), b' ') else {
        return Err(Fail::Of(LineFault::BadExchange));
    };
    if has_space(target) {
        return Err(Fail::Of(LineFault::BadExchange));
    }
    let start = text.len() - target.len();
    let method = read_method(alloc, method)?;
    let mut target = text;
    target.advance(start);
    let uri = read_target(target)?;
    Ok(RequestLine { method, uri })
}

impl ScriptedExchange {
    ghost use Rattle.std.specs.Prelude.{◌≡◌, ◌∷◌, [], OnOk};
    ghost use Rattle.cli_script.specs.Reader.{bare_exchange};
    ghost use Rattle.cli_script.specs.Reader.{with_headers, with_layers, with_marks, with_params};
    ghost use Rattle.web_request.specs.Head.{uri_view};

    /// An exchange without headers, parameters, layers, body and data.
    pub fn new(alloc: Global, method: Method, uri: Uri) -> Self
        ensures { result ≡ bare_exchange method (uri_view uri) }
    {
        ScriptedExchange {
            method,
            uri,
            headers: HeaderMap::empty(alloc),
            params: Vec::new(alloc),
            layers: Vec::new(alloc),
            marks: Vec::new(alloc),
            peer: None,
            local: None,
            conn: None,
        }
    }

    /// Adds a mark at the end of the body.
    // Inlined as `Reader::read_text` is.
    #[inline(always)]
    pub fn add_mark(&mut self, mark: Mark) -> Result<(), NoMemory>
        ensures { OnOk result (self.new ≡ with_marks (mark ∷ []) self.old) }
    {
        self.marks.push(mark)?;
        Ok(())
    }

    /// Makes room for the headers, where there are none yet.
    fn expect_headers(&mut self, names: usize) -> Result<(), NoMemory>
        ensures { self.new ≡ self.old }
    {
        if !self.headers.is_empty() {
            return Ok(());
        }
        // So few names never exceed the greatest size of a map.
        match self.headers.reserve(names) {
            Ok(()) => Ok(()),
            Err(_) => Err(NoMemory),
        }
    }

    /// Adds a header after the others of its name. Before the first one there is made room for as
    /// many names as are expected.
    pub fn add_header(
        &mut self,
        header: (HeaderName, HeaderValue),
        expected_names: usize,
    ) -> Result<(), NoMemory>
        ensures { OnOk result (self.new ≡ with_headers (header ∷ []) self.old) }
    {
        self.expect_headers(expected_names)?;
        let (name, value) = header;
        // So few headers never reach the greatest size of a map.
        match self.headers.append(name, value) {
            Ok(_) => Ok(()),
            Err(_) => Err(NoMemory),
        }
    }

    /// Adds a layer after the others.
    pub fn add_layer(&mut self, layer: LayerSettings) -> Result<(), NoMemory>
        ensures { OnOk result (self.new ≡ with_layers (layer ∷ []) self.old) }
    {
        self.layers.push(layer)?;
        Ok(())
    }

    /// Adds a parameter after the others.
    pub fn add_param(&mut self, param: Pair) -> Result<(), NoMemory>
        ensures { OnOk result (self.new ≡ with_params (param ∷ []) self.old) }
    {
        self.params.push(param)?;
        Ok(())
    }
}
