//! The payload itself as an argument.
use crate::from_request::FromRequest;
use crate::ready::Ready;
use std::alloc::Global;
use web_body::Payload;
use web_reply::Error;
use web_request::{App, HttpRequest, NoMemory, Source};

/// The payload as it came, unread, at the first poll. It is never refused. Later arguments find no
/// body.
impl<S: Source, A: App<Source = S>> FromRequest<A> for Payload<S> {
    ghost use Rattle.std.specs.Prelude.{◌≡◌, IsOk, IfOk, Ok, Some, [], false, is_none, ⊤};
    ghost use Rattle.web_body.specs.Payload.{payload_feed};
    ghost use Rattle.web_extract.specs.Extracts.{Extracts};
    ghost use Rattle.web_extract.specs.DataArguments.{internal_error};
    ghost use Rattle.web_extract.specs.PayloadArgument.{MeansPayload, payload_some};
    ghost use Rattle.web_extract.specs.ReadyFuture.{GivesHeld};
    ghost use Rattle.web_extract.specs.SomeAnswer.{itself};

    type Error = Error;

    type Future = Ready<Result<Payload<S>, Error>>;

    ghost means = { λ q m rest n x. MeansPayload S.feed m rest n x };

    ghost needs_no_memory = { λ _. ⊤ };

    ghost some = { λ q m. payload_some S.feed (internal_error []) m };

    ghost converted = { itself };

    fn from_request(
        _alloc: Global,
        _req: &HttpRequest<A>,
        payload: &mut Payload<S>,
    ) -> Result<Ready<Result<Payload<S>, Error>>, NoMemory>
        ensures fresh { IfOk result (λ f. is_none f ≡ false) }
        ensures extracts { IfOk result (λ f. Extracts
            (λ m rest n x. MeansPayload S.feed m rest n x) (λ n x. GivesHeld f n x)
            (payload_feed S.feed payload.old).marks
            (payload_feed S.feed payload.new).marks) }
        ensures memory { IsOk result }
        ensures moved { IfOk result (λ f. f ≡ Some (Ok payload.old)) }
        ensures taken { payload.new ≡ Payload.None }
    {
        Ok(Ready::new(Ok(payload.take())))
    }
}
