//! An example: three routes of three lists of arguments, with a header on every reply.
ghost use Rattle.std.specs.Prelude.{◌≡◌, ℕ, List, true};
ghost use Rattle.std.specs.Str.{bytes_eq};
ghost use Rattle.web_request.specs.declared.source.Mark.{Mark};
ghost use Rattle.web_request.specs.Head.{head_path};
ghost use Rattle.web_request.specs.Request.{Request};
ghost use Rattle.web_reply.specs.ResponseBodies.{Plain};
ghost use Rattle.web_reply.specs.Replies.{Reply};
ghost use Rattle.web_worker.specs.HandlerServices.{request_promise, rules_of};
ghost use Rattle.web_worker.specs.ServicePromises.{Once};
ghost use Rattle.web_routing.specs.ReplyHeaders.{with_header};

use crate::handler_service::HandlerService;
use crate::path_is::PathIs;
use crate::route::Route;
use crate::set_header::SetHeader;
use crate::wrap::Wrap;
use web_extract::FromRequest;
use web_reply::Responder;
use web_request::App;
use web_worker::{Handler, Service, Whole};

/// The site: two paths, and all others.
pub type Site<X, Y, Z, F, G, H> = Wrap<
    Route<PathIs, HandlerService<X, F>, Route<PathIs, HandlerService<Y, G>, HandlerService<Z, H>>>,
    SetHeader,
>;

/// A request for the first path gets the reply of the first handler, with the header.
pub fn first_route_law<
    A: App,
    X: FromRequest<A>,
    Y: FromRequest<A>,
    Z: FromRequest<A>,
    F: Handler<X>,
    G: Handler<Y>,
    H: Handler<Z>,
>(site: &Site<X, Y, Z, F, G, H>)
where
    F::Output: Responder<A>,
    G::Output: Responder<A>,
    H::Output: Responder<A>,
    ensures { (q : Request A.Layer A.Local A.Conn) (m : List Mark) (d : ℕ) (r : Reply Plain)
        → bytes_eq (head_path q.head) site.now.inner.chooser.0.now ≡ true
        → Once (request_promise (rules_of X.means X.Error.converts
        (F.answers site.now.inner.first.handler) F.Output.responds) q m) d r
        → Once (⟦<Site<X, Y, Z, F, G, H> as Service<A, Whole>>⟧.promise site.now q m) d
        (with_header site.now.change.name site.now.change.value r) }
{
    let _site = site;
}
