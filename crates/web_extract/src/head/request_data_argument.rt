//! Data of a single request as an argument.
ghost use Rattle.std.specs.Prelude.{◌≡◌, option_and_then, option_copied};

use crate::from_request::FromRequest;
use crate::internal_fault::internal_error;
use crate::ready::Ready;
use std::alloc::Global;
use web_body::Payload;
use web_reply::Error;
use web_request::{App, Holds, HttpRequest, NoMemory, ReqData};
use web_texts::Duplicate;

/// What the data of the request holds.
fn held_by<A: App, T>(req: &HttpRequest<A>) -> Option<&T>
where
    A::Local: Holds<T>,
    ensures { option_copied result ≡ option_and_then A.Local.Holds.held req.now.request.local }
{
    match req.extensions() {
        Some(local) => local.held(),
        None => None,
    }
}

/// A copy of what the data of the request holds, at the first poll. Where the request has no data,
/// or none of the type, refused with a cause of status 500. The payload is left.
impl<A: App, T: Duplicate> FromRequest<A> for ReqData<T>
where
    A::Local: Holds<T>,
{
    ghost use Rattle.std.specs.Prelude.{⊤};
    ghost use Rattle.web_extract.specs.DataArguments.{request_data_result};
    ghost use Rattle.web_extract.specs.HeadArguments.{MeansNow, now_some};
    ghost use Rattle.web_extract.specs.SomeAnswer.{itself};

    type Error = Error;

    type Future = Ready<Result<ReqData<T>, Error>>;

    ghost means = { λ q m rest n x.
        MeansNow (request_data_result A.Local.Holds.held q.local).result m rest n x };

    ghost leaves = { λ _. ⊤ };

    ghost some = { λ q m. now_some (request_data_result A.Local.Holds.held q.local).result m };

    ghost converted = { itself };

    fn from_request(
        alloc: Global,
        req: &HttpRequest<A>,
        _payload: &mut Payload<A::Source>,
    ) -> Result<Ready<Result<ReqData<T>, Error>>, NoMemory> {
        match held_by(req) {
            Some(value) => Ok(Ready::new(Ok(ReqData::new(value.duplicate(alloc)?)))),
            None => {
                let refusal = internal_error(alloc, "Missing expected request extension data")?;
                Ok(Ready::new(Err(refusal)))
            }
        }
    }
}
