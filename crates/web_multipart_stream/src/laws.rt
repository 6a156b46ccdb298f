//! What the steps of a reader mean for what is due, and that parts do not depend on how their body
//! is cut.
ghost use Rattle.std.specs.Prelude.{List};
ghost use Rattle.web_request.specs.declared.source.Mark.{Mark};
ghost use Rattle.web_body.specs.Cuttings.{SameBody};
ghost use Rattle.web_multipart_parts.specs.PartReading.{Reader};
ghost use Rattle.web_multipart_stream.specs.PartSchedules.{schedule};
ghost use Rattle.web_multipart_stream.specs.ScheduleLaws.{SameParts, ScheduleLaws};

/// States what each step of a reader of parts, and each mark of a body, means for what is due.
///
/// The contract is a law, for callers to cite in proofs; a call of it has no effect.
pub fn schedule_laws()
    ensures { ScheduleLaws }
{}

/// A body has the same parts and the same end in every cutting: only when they come may differ.
///
/// The contract is a law, for callers to cite in proofs; a call of it has no effect.
pub fn cutting_law()
    ensures { (r : Reader) (m n : List Mark) → SameBody m n
        → SameParts (schedule r m) (schedule r n) }
{}
