//! Requests, exchanges and workers of any application.
ghost use Rattle.std.specs.Prelude.{◌≡◌};

use bytes::Bytes;
use http::{Method, Version};
use http_header::HeaderMap;
use http_uri::Uri;
use std::alloc::Global;
use std::process::Abort;
use std::rc::Rc;
use web_body::{Marks, Payload};
use web_request::{
    App, AppConfig, HttpRequest, HttpRequestPool, Mark, Pair, RequestHead, RequestParts,
};
use web_worker::{Exchange, Worker};

fn config(rt: &impl Abort, alloc: Global) -> AppConfig {
    AppConfig::local(alloc).expect(rt, "memory")
}

/// The head of a POST request without headers.
pub(crate) fn head(rt: &impl Abort, alloc: Global) -> RequestHead {
    RequestHead {
        uri: Uri::from_static("/").expect(rt, "a target"),
        method: Method::POST,
        version: Version::HTTP_11,
        headers: HeaderMap::new(alloc),
        peer_addr: None,
    }
}

/// A request without parameters, layers and data.
pub(crate) fn parts<A: App>(rt: &impl Abort, alloc: Global) -> RequestParts<A> {
    RequestParts {
        head: head(rt, alloc),
        params: Vec::new(alloc),
        layers: Vec::new(alloc),
        conn: None,
        local: None,
    }
}

/// A pool under this root layer that keeps up to so many records.
pub(crate) fn pool<A: App>(
    rt: &impl Abort,
    alloc: Global,
    root: A::Layer,
    capacity: usize,
) -> HttpRequestPool<A>
    requires { A.Layer.ready root }
{
    let root = Rc::new(alloc, root).expect(rt, "memory");
    HttpRequestPool::with_capacity(alloc, root, config(rt, alloc), capacity).expect(rt, "memory")
}

/// A request under this root layer, of a pool of its own.
pub(crate) fn request<A: App>(rt: &impl Abort, alloc: Global, root: A::Layer) -> HttpRequest<A>
    requires { A.Layer.ready root }
{
    let mut pool = pool::<A>(rt, alloc, root, 0);
    assert!(rt; pool.made() < 9);
    pool.start(alloc, parts(rt, alloc))
        .ok()
        .expect(rt, "memory")
}

/// An exchange without layers and data of its own.
pub(crate) fn exchange<A: App>(
    alloc: Global,
    head: RequestHead,
    params: Vec<Pair>,
    body: Payload<A::Source>,
) -> Exchange<A> {
    Exchange {
        head,
        params,
        layers: Vec::new(alloc),
        conn: None,
        local: None,
        body,
    }
}

/// A worker with this root layer that made no record yet.
pub(crate) fn worker<A: App>(rt: &impl Abort, alloc: Global, root: A::Layer) -> Worker<A>
    requires { A.Layer.ready root }
    ensures { result.made ≡ 0 }
{
    let root = Rc::new(alloc, root).expect(rt, "memory");
    Worker::new(alloc, root, config(rt, alloc), 0).expect(rt, "memory")
}

/// `ab`, and a stall.
pub(crate) fn stalling(rt: &impl Abort, alloc: Global) -> Payload<Marks> {
    let marks = vec![in alloc; Mark::Piece(Bytes::from_static(b"ab")), Mark::Stall];
    Payload::Stream(Marks::new(marks.expect(rt, "memory")))
}
