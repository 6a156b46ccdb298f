//! What a body is read to does not depend on how it is cut into pieces.
ghost use Rattle.std.specs.Prelude.{ℕ, List};
ghost use Rattle.web_request.specs.Reading.{reading};
ghost use Rattle.web_request.specs.declared.source.Mark.{Mark};
ghost use Rattle.web_body.specs.Cuttings.{SameBody, SameContent};

/// A body has the same content under a limit in every cutting: it passes the limit, fails, or is
/// whole with the same bytes. Only how many bytes the pieces have that pass the limit may differ.
///
/// The contract is a law, for callers to cite in proofs; a call of it has no effect.
pub fn reading_cutting_law()
    ensures { (limit : ℕ) (m n : List Mark) → SameBody m n
        → SameContent (reading limit m).content (reading limit n).content }
{}
