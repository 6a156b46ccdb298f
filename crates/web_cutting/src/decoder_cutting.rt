//! Decoded bodies in every cutting.
ghost use Rattle.std.specs.Prelude.{◌≤◌, ℕ, List, Option, length};
ghost use Rattle.web_request.specs.Body.{piece_bytes};
ghost use Rattle.web_request.specs.declared.source.Mark.{Mark};
ghost use Rattle.web_body.specs.Cuttings.{SameBody};
ghost use Rattle.web_body.specs.declared.errors.json_error.JsonPayloadError.{JsonPayloadError};
ghost use Rattle.web_body.specs.declared.errors.form_error.UrlencodedError.{UrlencodedError};
ghost use Rattle.web_decoders.specs.FormBodies.{FormAnswer};
ghost use Rattle.web_decoders.specs.JsonBodies.{JsonAnswer};
ghost use Rattle.web_cutting.specs.CutDecoders.{CutsBody};

use web_body::{ReadJson, ReadPairs};

/// A JSON body allows the same results in every cutting, under any limit and after any refusal by
/// its head. So does a form whose bytes are within the limit; the refusal of a greater one says how
/// many bytes came.
///
/// The contract is a law, for callers to cite in proofs; a call of it has no effect.
pub fn decoder_cutting_law<T: ReadJson, P: ReadPairs>()
    ensures json { (limit : ℕ) (refusal : Option JsonPayloadError) (m n : List Mark) → SameBody m n
        → CutsBody (JsonAnswer T.reads limit) limit refusal m n }
    ensures form { (limit : ℕ) (refusal : Option UrlencodedError) (m n : List Mark) → SameBody m n
        → length (piece_bytes m) ≤ limit
        → CutsBody (FormAnswer P.reads_pairs limit) limit refusal m n }
{}
