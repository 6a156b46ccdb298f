//! What a collector holds is what it took.
ghost use Rattle.std.specs.Prelude.{◌≡◌, ◌+◌, ℕ};
ghost use Rattle.web_texts.specs.Counts.{Rose};
ghost use Rattle.web_body.specs.declared.payload.Payload.{Payload as Body};
ghost use Rattle.web_body.specs.BufferedBytes.{TakenSince};
ghost use Rattle.web_body.specs.Payload.{KeepsPayload, bytes_between, payload_feed};

use web_request::Source;

/// After each poll that returned `Pending`, a collector holds as many bytes as it took of its
/// payload since it was made: none at first, and with each such poll those that it then took.
///
/// The contract is a law, for callers to cite in proofs with the clauses of a poll: `payload`,
/// `pending` and `held`. A call has no effect.
pub fn buffered_law<S: Source>()
    ensures made { (p : Body S) → TakenSince S.feed p p 0 }
    ensures polled { (first old new : Body S) (held more : ℕ)
        → TakenSince S.feed first old held
        → KeepsPayload S.feed old new
        → Rose (payload_feed S.feed old).stalls (payload_feed S.feed new).stalls
        → more ≡ held + bytes_between S.feed old new
        → TakenSince S.feed first new more }
{}
