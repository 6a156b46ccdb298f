//! Replies in every cutting of the body.
ghost use Rattle.web_request.specs.Pool.{Pool};
ghost use Rattle.web_cutting.specs.CutReplies.{CutsReplies};

use web_extract::FromRequest;
use web_reply::Responder;
use web_request::App;
use web_worker::{Handler, Serves};

/// Of two exchanges that differ in nothing but how their body is cut, the second may have each
/// reply that the first may have, where the arguments allow the same results in every cutting. So
/// where the second has one reply, `serve_all` and `serve_flights` give both the same.
///
/// The contract is a law, for callers to cite in proofs; a call of it has no effect.
pub fn reply_cutting_law<P: App, A: FromRequest<P>, H: Handler<A>>()
where
    H::Output: Responder<P>,
    ensures { (pool : Pool P.Layer) (handler : H)
        → CutsReplies A.means (⟦<H as Serves<P, A>>⟧.setting handler pool) }
{}
