//! The empty list of arguments.
use crate::from_request::FromRequest;
use crate::never::Never;
use crate::ready::Ready;
use std::alloc::Global;
use web_body::Payload;
use web_request::{App, HttpRequest, NoMemory};

/// No argument. The payload stays as it is.
impl<A: App> FromRequest<A> for () {
    ghost use Rattle.std.specs.Prelude.{◌≡◌, IsOk, IfOk, false, is_none, ⊤};
    ghost use Rattle.web_body.specs.Payload.{payload_feed};
    ghost use Rattle.web_extract.specs.Extracts.{Extracts, ExtractsUnread};
    ghost use Rattle.web_extract.specs.ReadyFuture.{GivesHeld, MeansUnit, unit_some};
    ghost use Rattle.web_extract.specs.Never.{never_converted};

    type Error = Never;

    type Future = Ready<Result<(), Never>>;

    ghost means = { λ q m rest n x. MeansUnit m rest n x };

    ghost needs_no_memory = { λ _. ⊤ };

    ghost leaves = { λ _. ⊤ };

    ghost some = { λ q m. unit_some m };

    ghost converted = { never_converted };

    fn from_request(
        _alloc: Global,
        _req: &HttpRequest<A>,
        _payload: &mut Payload<A::Source>,
    ) -> Result<Ready<Result<(), Never>>, NoMemory>
        ensures fresh { IfOk result (λ f. is_none f ≡ false) }
        ensures extracts { IfOk result (λ f. Extracts
            (λ m rest n x. MeansUnit m rest n x) (λ n x. GivesHeld f n x)
            (payload_feed A.Source.feed _payload.old).marks
            (payload_feed A.Source.feed _payload.new).marks) }
        ensures unread { IfOk result (λ f. ExtractsUnread
            (λ m rest n x. MeansUnit m rest n x) (λ n x. GivesHeld f n x)) }
        ensures memory { IsOk result }
        ensures kept { _payload.new ≡ _payload.old }
    {
        Ok(Ready::new(Ok(())))
    }
}
