//! An argument that comes late.
ghost use Rattle.std.specs.Prelude.{◌≡◌, IfOk, IsOk, None};
ghost use Rattle.demo_arguments.specs.LateAndWait.{late_result, refusal_in};

use crate::delayed::Delayed;
use crate::params::{delay_in, number_in};
use http::StatusCode;
use std::alloc::Global;
use web_body::Payload;
use web_extract::FromRequest;
use web_reply::{Cause, Error};
use web_request::{App, HttpRequest, NoMemory};
use web_texts::{Pair, Text};

/// An empty argument that comes, or is refused, after some polls.
///
/// The path's parameter `delay` is the number of polls that return `Pending` before, 0 where it is
/// not a number of at most 1,000,000. The parameter `refuse` is the status of the refusal; where it
/// is not a number from 400 to 599, the argument is not refused.
#[derive(Debug, Drop)]
pub struct Late;

/// The future of [`Late`].
pub type LateFuture = Delayed<Result<Late, Error>>;

/// The status of a refusal, if the parameters ask for one.
fn refusal_in(params: &[Pair]) -> Option<StatusCode>
    ensures { result ≡ refusal_in params.now }
{
    match number_in(params, "refuse", 599) {
        Some(code) if code >= 400 => StatusCode::from_u16(code as u16).ok(),
        _ => None,
    }
}

/// The refusal that the parameters ask for, else the empty value. Only a refusal needs memory.
fn late_result(alloc: Global, params: &[Pair]) -> Result<Result<Late, Error>, NoMemory>
    ensures value { IfOk result (λ answer. answer ≡ late_result params.now) }
    ensures memory { refusal_in params.now ≡ None → IsOk result }
{
    match refusal_in(params) {
        Some(status) => {
            let text = Text::of(alloc, "late")?;
            Ok(Err(Error::from(Cause::Custom { status, text })))
        }
        None => Ok(Ok(Late)),
    }
}

/// It leaves the payload as it is. Only a refusal needs memory.
impl<A: App> FromRequest<A> for Late {
    ghost use Rattle.std.specs.Prelude.{false, is_none};
    ghost use Rattle.web_body.specs.Payload.{payload_feed};
    ghost use Rattle.web_extract.specs.SomeAnswer.{itself};
    ghost use Rattle.web_extract.specs.Extracts.{Extracts};
    ghost use Rattle.demo_arguments.specs.DelayedValue.{GivesDelayed};
    ghost use Rattle.demo_arguments.specs.LateAndWait.{MeansLate, late_some};

    type Error = Error;

    type Future = LateFuture;

    ghost means = { λ q m rest n x. MeansLate q.params m rest n x };

    ghost needs_no_memory = { λ q. refusal_in q.params ≡ None };

    ghost some = { λ q m. late_some q.params m };

    ghost converted = { itself };

    fn from_request(
        alloc: Global,
        req: &HttpRequest<A>,
        _payload: &mut Payload<A::Source>,
    ) -> Result<LateFuture, NoMemory>
        ensures fresh { IfOk result (λ f. is_none f.value ≡ false) }
        ensures extracts { IfOk result (λ f. Extracts
            (λ m rest n x. MeansLate req.now.request.params m rest n x) (λ n x. GivesDelayed f n x)
            (payload_feed A.Source.feed _payload.old).marks
            (payload_feed A.Source.feed _payload.new).marks) }
        ensures memory { refusal_in req.now.request.params ≡ None → IsOk result }
        ensures kept { _payload.new ≡ _payload.old }
    {
        let params = req.match_info();
        let answer = late_result(alloc, params)?;
        Ok(Delayed::new(delay_in(params), answer))
    }
}
