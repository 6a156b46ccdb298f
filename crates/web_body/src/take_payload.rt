//! Messages that hold a payload.
ghost use Rattle.std.specs.Prelude.{◌≡◌};
ghost use Rattle.web_body.specs.declared.payload.Payload.{Payload as Held};

use crate::payload::Payload;
use web_request::{App, HttpRequest, Source};

/// A message whose payload can be taken.
pub trait TakePayload: Drop {
    /// What gives the payload piece by piece.
    type Source: Source;

    /// The payload.
    ghost payload: { Self → Held Self.Source };

    /// The message once its payload was taken.
    ghost without_payload: { Self → Self };

    /// Takes the payload, so that the message has none. It allocates nothing.
    fn take_payload(&mut self) -> Payload<Self::Source>
        ensures value { result ≡ payload self.old }
        ensures after { self.new ≡ without_payload self.old };
}

/// A request of its own has no payload: it stands beside its request.
impl<A: App> TakePayload for HttpRequest<A> {
    ghost use Rattle.web_body.specs.declared.payload.Payload.TheVariants as held;

    type Source = A::Source;

    ghost payload = { λ request. held.None };

    ghost without_payload = { λ request. request };

    fn take_payload(&mut self) -> Payload<A::Source> {
        Payload::None
    }
}
