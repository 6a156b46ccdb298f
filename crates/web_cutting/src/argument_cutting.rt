//! Arguments in every cutting of the body.
ghost use Rattle.std.specs.Prelude.{ℕ};
ghost use Rattle.web_request.specs.Request.{Request};
ghost use Rattle.web_extract.specs.ListMeanings.{Member};
ghost use Rattle.web_cutting.specs.CutFree.{CutFree};

use bytes::Bytes;
use web_extract::{Capped, Configs, FromRequest, IntoSome, WithCap};
use web_request::App;

/// `Bytes` and `String` allow the same results in every cutting of the body, under every cap, and
/// leave the same of it; and so do `Option` and `Result` of an argument that does. Only the number
/// of polls may differ.
///
/// The contract is a law, for callers to cite in proofs; a call of it has no effect.
pub fn argument_cutting_law<P: App, A: FromRequest<P>, E: Drop>()
where
    P::Layer: Configs,
    A::Error: IntoSome<E>,
    ensures bytes { (q : Request P.Layer P.Local P.Conn)
        → CutFree (⟦<Bytes as FromRequest<P>>⟧.means q) }
    ensures string { (q : Request P.Layer P.Local P.Conn)
        → CutFree (⟦<String as FromRequest<P>>⟧.means q) }
    ensures capped_bytes { (cap : ℕ) (q : Request P.Layer P.Local P.Conn)
        → CutFree (⟦<Bytes as WithCap<P>>⟧.means_capped cap q) }
    ensures capped_string { (cap : ℕ) (q : Request P.Layer P.Local P.Conn)
        → CutFree (⟦<String as WithCap<P>>⟧.means_capped cap q) }
    ensures option { (q : Request P.Layer P.Local P.Conn)
        → CutFree (A.means q) → CutFree (⟦<Option<A> as FromRequest<P>>⟧.means q) }
    ensures result { (q : Request P.Layer P.Local P.Conn)
        → CutFree (A.means q) → CutFree (⟦<Result<A, E> as FromRequest<P>>⟧.means q) }
{}

/// An argument that allows the same results in every cutting of the body does so as a place in a
/// list.
///
/// The contract is a law, for callers to cite in proofs; a call of it has no effect.
pub fn place_cutting_law<P: App, A: FromRequest<P>>()
    ensures { (q : Request P.Layer P.Local P.Conn)
        → CutFree (A.means q) → CutFree (Member A.Error.converts (A.means q)) }
{}

/// `Capped` of an argument that allows the same results in every cutting under this cap does so
/// too.
///
/// The contract is a law, for callers to cite in proofs; a call of it has no effect.
pub fn capped_cutting_law<P: App, A: WithCap<P>, const N: usize>()
    ensures { (q : Request P.Layer P.Local P.Conn)
        → CutFree (A.means_capped N q) → CutFree (⟦<Capped<A, N> as FromRequest<P>>⟧.means q) }
{}
