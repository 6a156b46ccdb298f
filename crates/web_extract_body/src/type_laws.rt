//! Laws of the arguments that are read from a body, as contracts of functions that callers cite in
//! proofs. A call of one has no effect.
ghost use Rattle.web_request.specs.Request.{Request};
ghost use Rattle.web_extract.specs.BytesArgument.{MeansBytes};
ghost use Rattle.web_extract.specs.LayerConfigurations.{payload_settings};
ghost use Rattle.web_extract_body.specs.EitherLaw.{DecidesEither};
ghost use Rattle.web_extract_body.specs.TypeFunctions.{DecidesForm, DecidesJson};

use crate::form_value::Form;
use crate::json_value::Json;
use web_codec::{ReadJson, ReadPairs};
use web_extract::{Configs, FromRequest};
use web_request::App;

/// Where the handlers, the predicates and the reader are functions, `Json` allows exactly one
/// result for each request and marks, and leaves one rest of them (`json_result`, `json_rest`).
pub fn json_law<P: App, T: ReadJson>()
where
    P::Layer: Configs,
    ensures { DecidesJson P.Layer.Configs.configurations P.Layer.OnJson.refuses
        P.Layer.JsonType.allows_type T.reads ⟦<Json<T> as FromRequest<P>>⟧.means }
{}

/// Where the handlers and the reader are functions, `Form` allows exactly one result for each
/// request and marks, and leaves one rest of them (`form_result`, `form_rest`).
pub fn form_law<P: App, T: ReadPairs>()
where
    P::Layer: Configs,
    ensures { DecidesForm P.Layer.Configs.configurations P.Layer.OnForm.refuses T.reads_pairs
        ⟦<Form<T> as FromRequest<P>>⟧.means }
{}

/// What one of two arguments means where each of them allows exactly one result: the refusal of the
/// buffering; else what the left argument gives of the whole body, and where that refuses, what the
/// right one gives of it, or the left error. The delays are added.
pub fn either_law<P: App, L: FromRequest<P>, R: FromRequest<P>>()
where
    P::Layer: Configs,
    ensures { (q : Request P.Layer P.Local P.Conn) → DecidesEither
        (MeansBytes (payload_settings P.Layer.Configs.configurations q.layers) q.head.headers)
        L.Error.converts (L.means q) R.Error.converts (R.means q) }
{}
