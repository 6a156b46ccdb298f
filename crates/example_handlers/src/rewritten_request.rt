//! A middleware that rewrites a request and keeps it as it came.
ghost use Rattle.std.specs.Prelude.{◌≡◌, ◌++◌, ◌∷◌, [], IfOk};
ghost use Rattle.web_request.specs.Head.{head_view};

use std::alloc::Global;
use std::rc::Rc;
use web_request::{App, HttpRequest, NoMemory, RequestHead};

/// The request as it came, and the same request with another head and one layer more. They share
/// what is equal; still neither change is seen in the request that is kept. The layer must be
/// ready: its closures may be called. Returns `NoMemory` where an allocation failed.
pub fn rewrite_request<A: App>(
    alloc: Global,
    request: HttpRequest<A>,
    head: RequestHead,
    layer: Rc<A::Layer>,
) -> Result<(HttpRequest<A>, HttpRequest<A>), NoMemory>
    requires ready { A.Layer.ready layer.value }
    ensures kept { IfOk result (λ both. both.0.request ≡ request.request) }
    ensures rewritten { IfOk result (λ both. both.1.request ≡ record request.request {
      head = head_view head;
      layers = request.request.layers ++ layer.value ∷ [];
    }) }
{
    let kept = request.duplicate(alloc)?;
    let mut rewritten = request;
    *rewritten.head_mut()? = head;
    rewritten.add_layer(layer)?;
    Ok((kept, rewritten))
}
