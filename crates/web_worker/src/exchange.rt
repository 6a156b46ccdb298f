//! Exchanges: requests and their bodies, as they come to a worker.

use http::{Method, Version};
use http_header::HeaderMap;
use http_uri::{Uri, UriError};
use std::alloc::Global;
use std::marker::Model;
use std::rc::Rc;
use web_body::Payload;
use web_request::{App, Pair, RequestHead, RequestParts};

/// A request and its body, before a worker has made a record of it.
#[derive(Drop)]
pub struct Exchange<A: App> {
    pub head: RequestHead,
    /// The parameters of the matched path, by name.
    pub params: Vec<Pair>,
    /// The layers above the worker's root layer, the nearest to the handler last.
    pub layers: Vec<Rc<A::Layer>>,
    /// The data of the connection.
    pub conn: Option<Rc<A::Conn>>,
    /// The data of the request alone.
    pub local: Option<A::Local>,
    pub body: Payload<A::Source>,
}

impl<A: App> Model for Exchange<A> {
    ghost use Rattle.web_request.specs.Head.{head_view};
    ghost use Rattle.web_request.specs.ReadyLayers.{AllReady};
    ghost use Rattle.web_request.specs.Shared.{values, value_of};
    ghost use Rattle.web_worker.specs.Exchanges.{ExchangeView};

    ghost Value = { ExchangeView A.Source A.Layer A.Local A.Conn };

    ghost view = { λ x. record {
      parts = record {
        head = head_view x.head;
        params = x.params.items;
        layers = values x.layers.items;
        conn = value_of x.conn;
        local = x.local;
      };
      body = x.body;
    } };

    ghost invariant = { λ x. AllReady A.Layer.ready (values x.layers.items) };
}

impl<A: App> Exchange<A> {
    ghost use Rattle.std.specs.Prelude.{◌≡◌, IfErr, IfOk};
    ghost use Rattle.web_worker.specs.Requests.{IsGet, RefusesTarget};

    /// A GET request of HTTP/1.1 for this target, without headers, parameters and body. Its fields
    /// can be set.
    ///
    /// `Err(UriError::Invalid)` if the text is no target, and `Err(UriError::OutOfMemory)` if an
    /// allocation failed.
    ///
    /// ```
    /// let exchange = Exchange::get(alloc, "/items?page=2")?;
    /// ```
    pub fn get(alloc: Global, target: &str) -> Result<Exchange<A>, UriError>
        ensures request { IfOk result (λ x. IsGet target.now x) }
        ensures refused { IfErr result (λ e. RefusesTarget target.now e) }
    {
        let uri = match Uri::from_str(alloc, target) {
            Ok(uri) => uri,
            Err(UriError::Invalid(error)) => return Err(UriError::Invalid(error)),
            Err(UriError::OutOfMemory) => return Err(UriError::OutOfMemory),
        };
        let head = RequestHead {
            uri,
            method: Method::GET,
            version: Version::HTTP_11,
            headers: HeaderMap::new(alloc),
            peer_addr: None,
        };
        Ok(Exchange {
            head,
            params: Vec::new(alloc),
            layers: Vec::new(alloc),
            conn: None,
            local: None,
            body: Payload::None,
        })
    }

    /// The parts of the request, and its body.
    pub(crate) fn into_parts(self) -> (RequestParts<A>, Payload<A::Source>)
        ensures parts { result.0 ≡ self.parts }
        ensures body { result.1 ≡ self.body }
    {
        let Exchange {
            head,
            params,
            layers,
            conn,
            local,
            body,
        } = self;
        let parts = RequestParts {
            head,
            params,
            layers,
            conn,
            local,
        };
        (parts, body)
    }
}
