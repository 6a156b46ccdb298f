//! Payloads that are taken or left by what the head says.
ghost use Rattle.std.specs.Prelude.{◌≡◌};
ghost use Rattle.web_decoders.specs.LeftPayloads.{left_where, taken_where};

use web_body::Payload;

/// Takes the payload, or leaves it and returns `None`.
pub fn take_where<S>(payload: &mut Payload<S>, is_taken: bool) -> Payload<S>
    ensures value { result ≡ taken_where is_taken payload.old }
    ensures left { payload.new ≡ left_where is_taken payload.old }
{
    if is_taken {
        payload.take()
    } else {
        Payload::None
    }
}
