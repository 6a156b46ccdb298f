//! A middleware: a handler round a handler.

use crate::request_path::RequestPath;
use std::alloc::Global;
use web_request::{NoMemory, Text};
use web_worker::Handler;

/// Keeps the path of each request, and hands the other arguments on to the handler that it holds.
#[derive(Drop)]
pub struct Logged<H> {
    pub inner: H,
    pub paths: Vec<Text>,
}

impl<Args: Drop, H: Handler<Args>> Handler<(RequestPath, Args)> for Logged<H> {
    ghost use Rattle.std.specs.Prelude.{None};

    type Output = H::Output;

    type Future = H::Future;

    ghost answers = { λ h args n y. H.answers h.inner args.1 n y };

    ghost calls = { λ h. None };

    ghost ready = { λ h. H.ready h.inner };

    fn call(&mut self, alloc: Global, args: (RequestPath, Args)) -> Result<H::Future, NoMemory> {
        let (RequestPath(path), args) = args;
        self.paths.push(path)?;
        self.inner.call(alloc, args)
    }
}
