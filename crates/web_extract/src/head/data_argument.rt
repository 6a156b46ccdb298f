//! Data of the application as an argument.
use crate::from_request::FromRequest;
use crate::internal_fault::internal_error;
use crate::ready::Ready;
use std::alloc::Global;
use web_body::Payload;
use web_reply::Error;
use web_request::{App, Data, Holds, HttpRequest, NoMemory};
use web_texts::Duplicate;

/// The data of the nearest layer that holds it, shared once more, at the first poll. Where no layer
/// holds it, refused with a cause of status 500. The payload is left.
impl<A: App, T: Drop> FromRequest<A> for Data<T>
where
    A::Layer: Holds<Data<T>>,
{
    ghost use Rattle.std.specs.Prelude.{⊤};
    ghost use Rattle.web_extract.specs.DataArguments.{data_result};
    ghost use Rattle.web_extract.specs.HeadArguments.{MeansNow, now_some};
    ghost use Rattle.web_extract.specs.SomeAnswer.{itself};

    type Error = Error;

    type Future = Ready<Result<Data<T>, Error>>;

    ghost means = { λ q m rest n x.
        MeansNow (data_result A.Layer.Holds.held q.layers).result m rest n x };

    ghost leaves = { λ _. ⊤ };

    ghost some = { λ q m. now_some (data_result A.Layer.Holds.held q.layers).result m };

    ghost converted = { itself };

    fn from_request(
        alloc: Global,
        req: &HttpRequest<A>,
        _payload: &mut Payload<A::Source>,
    ) -> Result<Ready<Result<Data<T>, Error>>, NoMemory> {
        match req.app_data::<Data<T>>() {
            Some(held) => Ok(Ready::new(Ok(held.duplicate(alloc)?))),
            None => {
                let refusal = internal_error(
                    alloc,
                    "Requested application data is not configured correctly. View/enable debug \
                     logs for more details.",
                )?;
                Ok(Ready::new(Err(refusal)))
            }
        }
    }
}
