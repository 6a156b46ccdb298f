//! Lines do not depend on how their body is cut.
ghost use Rattle.std.specs.Prelude.{◌≡◌, ℕ, List};
ghost use Rattle.web_request.specs.declared.source.Mark.{Mark};
ghost use Rattle.web_body.specs.Cuttings.{SameBody};
ghost use Rattle.web_lines.specs.LineCuttings.{answers_of};
ghost use Rattle.web_lines.specs.LineSchedules.{schedule};

/// A body has the same lines and the same first error in every cutting: only when they come may
/// differ.
///
/// The contract is a law, for callers to cite in proofs; a call of it has no effect.
pub fn cutting_law()
    ensures { (limit : ℕ) (came : List ℕ) (m n : List Mark) → SameBody m n
        → answers_of (schedule limit came m) ≡ answers_of (schedule limit came n) }
{}
