//! JSON bodies, forms, and one of two, in every cutting of the body.
ghost use Rattle.std.specs.Prelude.{ℕ, min};
ghost use Rattle.web_request.specs.Request.{Request};
ghost use Rattle.web_extract.specs.LayerConfigurations.{form_settings};
ghost use Rattle.web_cutting.specs.CutFree.{CutFree, CutFreeWithin};

use web_codec::{ReadJson, ReadPairs};
use web_extract::{Configs, FromRequest, WithCap};
use web_extract_body::{Either, Form, Json};
use web_request::App;

/// `Json` allows the same results in every cutting of the body, and `Form` where the body is within
/// the limit, each of them under every cap; the number that a form's refusal carries tells the size
/// of the pieces that passed the limit.
///
/// The contract is a law, for callers to cite in proofs; a call of it has no effect.
pub fn value_cutting_law<P: App, T: ReadJson, F: ReadPairs>()
where
    P::Layer: Configs,
    ensures json { (q : Request P.Layer P.Local P.Conn)
        → CutFree (⟦<Json<T> as FromRequest<P>>⟧.means q) }
    ensures capped_json { (cap : ℕ) (q : Request P.Layer P.Local P.Conn)
        → CutFree (⟦<Json<T> as WithCap<P>>⟧.means_capped cap q) }
    ensures form { (q : Request P.Layer P.Local P.Conn) → CutFreeWithin
        (form_settings P.Layer.Configs.configurations q.layers).limit
        (⟦<Form<F> as FromRequest<P>>⟧.means q) }
    ensures capped_form { (cap : ℕ) (q : Request P.Layer P.Local P.Conn) → CutFreeWithin
        (min (form_settings P.Layer.Configs.configurations q.layers).limit cap)
        (⟦<Form<F> as WithCap<P>>⟧.means_capped cap q) }
{}

/// `Either` allows the same results in every cutting of the body, whatever its sides are: both get
/// the whole body as one piece.
///
/// The contract is a law, for callers to cite in proofs; a call of it has no effect.
pub fn either_cutting_law<P: App, L: FromRequest<P>, R: FromRequest<P>>()
where
    P::Layer: Configs,
    ensures { (q : Request P.Layer P.Local P.Conn)
        → CutFree (⟦<Either<L, R> as FromRequest<P>>⟧.means q) }
{}
