//! Bodies within a limit in every cutting: for forms, which tell how large a body above it is.
ghost use Rattle.std.specs.Prelude.{ℕ};
ghost use Rattle.web_request.specs.Pool.{Pool};
ghost use Rattle.web_request.specs.Request.{Request};
ghost use Rattle.web_extract.specs.FirstTaker.{LeavesAllOrNone};
ghost use Rattle.web_cutting.specs.CutFree.{CutFree, CutFreeWithin};
ghost use Rattle.web_cutting.specs.CutReplies.{CutsRepliesWithin};

use web_extract::{Capped, Configs, FromRequest, IntoSome, WithCap};
use web_reply::Responder;
use web_request::App;
use web_worker::{Handler, Serves};

/// An argument that allows the same results in every cutting of a body does so of one within any
/// limit. `Option` and `Result` of one that does so within a limit do so too.
///
/// The contract is a law, for callers to cite in proofs; a call of it has no effect.
pub fn argument_within_law<P: App, A: FromRequest<P>, E: Drop>()
where
    P::Layer: Configs,
    A::Error: IntoSome<E>,
    ensures any { (limit : ℕ) (q : Request P.Layer P.Local P.Conn)
        → CutFree (A.means q) → CutFreeWithin limit (A.means q) }
    ensures option { (limit : ℕ) (q : Request P.Layer P.Local P.Conn)
        → CutFreeWithin limit (A.means q)
        → CutFreeWithin limit (⟦<Option<A> as FromRequest<P>>⟧.means q) }
    ensures result { (limit : ℕ) (q : Request P.Layer P.Local P.Conn)
        → CutFreeWithin limit (A.means q)
        → CutFreeWithin limit (⟦<Result<A, E> as FromRequest<P>>⟧.means q) }
{}

/// `Capped` of an argument that allows the same results in every cutting of a body within a limit,
/// under this cap, does so too.
///
/// The contract is a law, for callers to cite in proofs; a call of it has no effect.
pub fn capped_within_law<P: App, A: WithCap<P>, const N: usize>()
    ensures { (limit : ℕ) (q : Request P.Layer P.Local P.Conn)
        → CutFreeWithin limit (A.means_capped N q)
        → CutFreeWithin limit (⟦<Capped<A, N> as FromRequest<P>>⟧.means q) }
{}

/// A list of one to four arguments that allow the same results in every cutting of a body within a
/// limit does so too, where those before the last leave all of the body or none.
///
/// The contract is a law, for callers to cite in proofs; a call of it has no effect.
pub fn list_within_law<
    P: App,
    A: FromRequest<P>,
    B: FromRequest<P>,
    C: FromRequest<P>,
    D: FromRequest<P>,
>()
    ensures one { (limit : ℕ) (q : Request P.Layer P.Local P.Conn)
        → CutFreeWithin limit (A.means q)
        → CutFreeWithin limit (⟦<(A,) as FromRequest<P>>⟧.means q) }
    ensures two { (limit : ℕ) (q : Request P.Layer P.Local P.Conn)
        → LeavesAllOrNone (A.means q)
        → CutFreeWithin limit (A.means q) → CutFreeWithin limit (B.means q)
        → CutFreeWithin limit (⟦<(A, B) as FromRequest<P>>⟧.means q) }
    ensures three { (limit : ℕ) (q : Request P.Layer P.Local P.Conn)
        → LeavesAllOrNone (A.means q) → LeavesAllOrNone (B.means q)
        → CutFreeWithin limit (A.means q) → CutFreeWithin limit (B.means q)
        → CutFreeWithin limit (C.means q)
        → CutFreeWithin limit (⟦<(A, B, C) as FromRequest<P>>⟧.means q) }
    ensures four { (limit : ℕ) (q : Request P.Layer P.Local P.Conn)
        → LeavesAllOrNone (A.means q) → LeavesAllOrNone (B.means q) → LeavesAllOrNone (C.means q)
        → CutFreeWithin limit (A.means q) → CutFreeWithin limit (B.means q)
        → CutFreeWithin limit (C.means q) → CutFreeWithin limit (D.means q)
        → CutFreeWithin limit (⟦<(A, B, C, D) as FromRequest<P>>⟧.means q) }
{}

/// As `reply_cutting_law`, where the arguments allow the same results in every cutting of a body
/// within a limit, and the body is within it.
///
/// The contract is a law, for callers to cite in proofs; a call of it has no effect.
pub fn reply_within_law<P: App, A: FromRequest<P>, H: Handler<A>>()
where
    H::Output: Responder<P>,
    ensures { (pool : Pool P.Layer) (handler : H)
        → CutsRepliesWithin A.means (⟦<H as Serves<P, A>>⟧.setting handler pool) }
{}
