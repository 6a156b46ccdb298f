//! An argument that says how long the handler waits.

use crate::params::delay_in;
use std::alloc::Global;
use web_body::Payload;
use web_extract::{FromRequest, Never, Ready};
use web_request::{App, HttpRequest, NoMemory};

/// The path's parameter `delay`, if it is a number of at most 1,000,000, else 0.
#[derive(Debug, Drop)]
pub struct Wait(pub u64);

/// It leaves the payload as it is, is never refused, and needs no memory.
impl<A: App> FromRequest<A> for Wait {
    ghost use Rattle.std.specs.Prelude.{◌≡◌, IfOk, IsOk, false, is_none, ⊤};
    ghost use Rattle.web_body.specs.Payload.{payload_feed};
    ghost use Rattle.web_extract.specs.Extracts.{Extracts};
    ghost use Rattle.web_extract.specs.Never.{never_converted};
    ghost use Rattle.web_extract.specs.ReadyFuture.{GivesHeld};
    ghost use Rattle.demo_arguments.specs.LateAndWait.{MeansWait, wait_some};

    type Error = Never;

    type Future = Ready<Result<Wait, Never>>;

    ghost means = { λ q m rest n x. MeansWait q.params m rest n x };

    ghost needs_no_memory = { λ q. ⊤ };

    ghost some = { λ q m. wait_some q.params m };

    ghost converted = { never_converted };

    fn from_request(
        _alloc: Global,
        req: &HttpRequest<A>,
        _payload: &mut Payload<A::Source>,
    ) -> Result<Ready<Result<Wait, Never>>, NoMemory>
        ensures fresh { IfOk result (λ f. is_none f ≡ false) }
        ensures extracts { IfOk result (λ f. Extracts
            (λ m rest n x. MeansWait req.now.request.params m rest n x) (λ n x. GivesHeld f n x)
            (payload_feed A.Source.feed _payload.old).marks
            (payload_feed A.Source.feed _payload.new).marks) }
        ensures memory { IsOk result }
        ensures kept { _payload.new ≡ _payload.old }
    {
        Ok(Ready::new(Ok(Wait(delay_in(req.match_info())))))
    }
}
