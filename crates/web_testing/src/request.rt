//! Requests that are made step by step.
ghost use Rattle.std.specs.Prelude.{◌≡◌, codes, IfErr, IfOk};
ghost use Rattle.web_testing.specs.TestRequests.{ComesTo, IsNew, RefusesTarget, exchange_of};
ghost use Rattle.web_testing.specs.TestRequests.{map_sent, with_body, with_header, with_param};
ghost use Rattle.web_testing.specs.TestRequests.{with_peer};

use crate::error::TestError;
use bytes::Bytes;
use http::{Method, Version};
use http_header::HeaderMap;
use http_uri::{Uri, UriError};
use std::alloc::Global;
use std::marker::Model;
use web_body::Payload;
use web_reply::header_setting::{Placing, named, place_one};
use web_request::{App, Pair, RequestHead, SocketAddr};
use web_texts::{Fail, NoMemory};
use web_worker::Exchange;

/// The parts of a request that was not refused.
#[derive(Drop)]
struct Parts {
    head: RequestHead,
    params: Vec<Pair>,
    body: Bytes,
}

impl Model for Parts {
    ghost use Rattle.web_request.specs.Head.{head_view};
    ghost use Rattle.web_testing.specs.TestRequests.{Sent};

    ghost Value = { Sent };

    ghost view = { λ p. record {
      head = head_view p.head;
      params = p.params.items;
      body = p.body;
    } };
}

/// A request for a test, which is made step by step.
///
/// A step that is refused is kept: the later ones change nothing, and `into_exchange` returns the
/// error. So a test looks at one result.
#[derive(Drop)]
pub struct TestRequest {
    alloc: Global,
    parts: Result<Parts, TestError>,
}

impl Model for TestRequest {
    ghost use Rattle.std.specs.Prelude.{Result};
    ghost use Rattle.web_testing.specs.TestRequests.{Sent};
    ghost use Rattle.web_testing.specs.declared.error.TestError.{TestError};

    ghost Value = { Result Sent TestError };

    ghost view = { λ r. r.parts };
}

/// The parts of a request without headers, parameters and body.
fn new_parts(alloc: Global, method: Method, target: &str) -> Result<Parts, TestError>
    ensures request { IfOk result (λ sent. IsNew method target.now sent) }
    ensures refused { IfErr result (λ e. RefusesTarget target.now e) }
{
    let uri = match Uri::from_str(alloc, target) {
        Ok(uri) => uri,
        Err(UriError::Invalid(_)) => return Err(TestError::Target),
        Err(UriError::OutOfMemory) => return Err(TestError::NoMemory),
    };
    let head = RequestHead {
        uri,
        method,
        version: Version::HTTP_11,
        headers: HeaderMap::new(alloc),
        peer_addr: None,
    };
    Ok(Parts {
        head,
        params: Vec::new(alloc),
        body: Bytes::new(),
    })
}

/// The parts with one more header.
#[tactic(auto, using(crate::proofs::TestRequestsLemmas::as_expected))]
fn with_header(
    alloc: Global,
    parts: Result<Parts, TestError>,
    name: &str,
    value: &str,
) -> Result<Parts, TestError>
    ensures { ComesTo (with_header name.now value.now parts) result }
{
    let mut parts = parts?;
    let header = named(alloc, name, value)?;
    match place_one(&mut parts.head.headers, Placing::Append, header) {
        Ok(()) => Ok(parts),
        Err(Fail::Of(error)) => Err(TestError::Header(error)),
        Err(Fail::NoMemory) => Err(TestError::NoMemory),
    }
}

/// The parts with one more parameter.
#[tactic(auto, using(crate::proofs::TestRequestsLemmas::as_expected))]
fn with_param(
    alloc: Global,
    parts: Result<Parts, TestError>,
    name: &str,
    value: &str,
) -> Result<Parts, TestError>
    ensures { ComesTo (with_param name.now value.now parts) result }
{
    let mut parts = parts?;
    let param = Pair::new(alloc, name, value)?;
    match parts.params.push(param) {
        Ok(()) => Ok(parts),
        Err(_) => Err(TestError::NoMemory),
    }
}

/// The parts with this body.
#[tactic(auto, using(crate::proofs::TestRequestsLemmas::as_expected))]
fn with_body(
    alloc: Global,
    parts: Result<Parts, TestError>,
    body: &[u8],
) -> Result<Parts, TestError>
    ensures { ComesTo (with_body body.now parts) result }
{
    let mut parts = parts?;
    match Bytes::copy_from_slice(alloc, body) {
        Ok(body) => {
            parts.body = body;
            Ok(parts)
        }
        Err(_) => Err(TestError::NoMemory),
    }
}

/// The parts of a request that comes from this address.
fn with_peer(mut parts: Parts, peer: SocketAddr) -> Parts
    ensures { result ≡ with_peer peer parts }
{
    parts.head.peer_addr = Some(peer);
    parts
}

impl TestRequest {
    /// A request of HTTP/1.1 with this method and target, without headers, parameters and body.
    pub fn new(alloc: Global, method: Method, target: &str) -> TestRequest
        ensures request { IfOk result (λ sent. IsNew method target.now sent) }
        ensures refused { IfErr result (λ e. RefusesTarget target.now e) }
    {
        TestRequest {
            alloc,
            parts: new_parts(alloc, method, target),
        }
    }

    /// A GET request for this target.
    pub fn get(alloc: Global, target: &str) -> TestRequest
        ensures request { IfOk result (λ sent. IsNew (codes "GET") target.now sent) }
        ensures refused { IfErr result (λ e. RefusesTarget target.now e) }
    {
        TestRequest::new(alloc, Method::GET, target)
    }

    /// A POST request for this target.
    pub fn post(alloc: Global, target: &str) -> TestRequest
        ensures request { IfOk result (λ sent. IsNew (codes "POST") target.now sent) }
        ensures refused { IfErr result (λ e. RefusesTarget target.now e) }
    {
        TestRequest::new(alloc, Method::POST, target)
    }

    /// Adds a header after those of its name.
    pub fn header(self, name: &str, value: &str) -> TestRequest
        ensures { ComesTo (with_header name.now value.now self) result }
    {
        let TestRequest { alloc, parts } = self;
        TestRequest {
            alloc,
            parts: with_header(alloc, parts, name, value),
        }
    }

    /// Adds a parameter of the path, as a router would find it.
    pub fn param(self, name: &str, value: &str) -> TestRequest
        ensures { ComesTo (with_param name.now value.now self) result }
    {
        let TestRequest { alloc, parts } = self;
        TestRequest {
            alloc,
            parts: with_param(alloc, parts, name, value),
        }
    }

    /// Sets the body, which comes in one piece.
    pub fn body(self, body: &[u8]) -> TestRequest
        ensures { ComesTo (with_body body.now self) result }
    {
        let TestRequest { alloc, parts } = self;
        TestRequest {
            alloc,
            parts: with_body(alloc, parts, body),
        }
    }

    /// Sets the address that the request comes from.
    pub fn peer(self, peer: SocketAddr) -> TestRequest
        ensures { result ≡ map_sent (λ sent. with_peer peer sent) self }
    {
        let TestRequest { alloc, parts } = self;
        let parts = match parts {
            Ok(parts) => Ok(with_peer(parts, peer)),
            Err(error) => Err(error),
        };
        TestRequest { alloc, parts }
    }

    /// The exchange of this request, with no layer and no data of its own, or the error of the
    /// first step that was refused. Its fields can be set: another body, say one in pieces, or
    /// layers.
    pub fn into_exchange<A: App>(self) -> Result<Exchange<A>, TestError>
        ensures { result ≡ map_sent exchange_of self }
    {
        let Parts { head, params, body } = self.parts?;
        Ok(Exchange {
            head,
            params,
            layers: Vec::new(self.alloc),
            conn: None,
            local: None,
            body: Payload::Whole(body),
        })
    }
}
