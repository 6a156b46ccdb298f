//! Lists of arguments in every cutting of the body.
ghost use Rattle.web_request.specs.Request.{Request};
ghost use Rattle.web_cutting.specs.CutFree.{CutFree};

use web_extract::FromRequest;
use web_request::App;

/// A list of one to four arguments that allow the same results in every cutting of the body does so
/// too: a list waits for all its places, so that no cutting decides which refusals it reports.
///
/// The contract is a law, for callers to cite in proofs; a call of it has no effect.
pub fn list_cutting_law<
    P: App,
    A: FromRequest<P>,
    B: FromRequest<P>,
    C: FromRequest<P>,
    D: FromRequest<P>,
>()
    ensures one { (q : Request P.Layer P.Local P.Conn)
        → CutFree (A.means q) → CutFree (⟦<(A,) as FromRequest<P>>⟧.means q) }
    ensures two { (q : Request P.Layer P.Local P.Conn)
        → CutFree (A.means q) → CutFree (B.means q)
        → CutFree (⟦<(A, B) as FromRequest<P>>⟧.means q) }
    ensures three { (q : Request P.Layer P.Local P.Conn)
        → CutFree (A.means q) → CutFree (B.means q) → CutFree (C.means q)
        → CutFree (⟦<(A, B, C) as FromRequest<P>>⟧.means q) }
    ensures four { (q : Request P.Layer P.Local P.Conn)
        → CutFree (A.means q) → CutFree (B.means q) → CutFree (C.means q) → CutFree (D.means q)
        → CutFree (⟦<(A, B, C, D) as FromRequest<P>>⟧.means q) }
{}
