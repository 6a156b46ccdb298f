//! One of two arguments as an argument.
ghost use Rattle.std.specs.Prelude.{◌≡◌};

use crate::either::{Either, EitherExtractError, EitherExtractState};
use crate::either_extract_fut::EitherExtractFut;
use bytes::Bytes;
use std::alloc::Global;
use web_body::Payload;
use web_extract::{Configs, FromRequest};
use web_request::{App, HttpRequest, NoMemory};

/// The left argument of the whole body, or where that is refused the right one of the same bytes.
///
/// The body is collected as the argument `Bytes` does it, with its refusals
/// (`EitherExtractError::Bytes`), its delay and what it leaves of the payload. Each side then gets
/// the whole body in one piece, which is lent to both and not copied, and its delay is added.
/// Where both refuse, the error is `EitherExtractError::Extract` of both.
impl<A: App, L: FromRequest<A>, R: FromRequest<A>> FromRequest<A> for Either<L, R>
where
    A::Layer: Configs,
{
    ghost use Rattle.web_extract.specs.BytesArgument.{MeansBytes, bytes_some};
    ghost use Rattle.web_extract.specs.LayerConfigurations.{payload_settings};
    ghost use Rattle.web_extract_body.specs.EitherArgument.{MeansEither, either_some};
    ghost use Rattle.web_extract_body.specs.EitherArgument.{either_converted};

    type Error = EitherExtractError<L::Error, R::Error>;

    type Future = EitherExtractFut<A, L, R>;

    ghost means = { λ q m rest n x. MeansEither
        (MeansBytes (payload_settings A.Layer.Configs.configurations q.layers) q.head.headers)
        (L.means q) (R.means q) m rest n x };

    ghost some = { λ q m. either_some
        (MeansBytes (payload_settings A.Layer.Configs.configurations q.layers) q.head.headers)
        (L.means q) (R.means q)
        (bytes_some (payload_settings A.Layer.Configs.configurations q.layers) q.head.headers)
        (L.some q) (R.some q) m };

    ghost converted = { either_converted L.Error.converts L.converted };

    fn from_request(
        alloc: Global,
        req: &HttpRequest<A>,
        payload: &mut Payload<A::Source>,
    ) -> Result<EitherExtractFut<A, L, R>, NoMemory> {
        let request = req.duplicate(alloc)?;
        let bytes = <Bytes as FromRequest<A>>::from_request(alloc, &request, payload)?;
        Ok(EitherExtractFut {
            request,
            state: EitherExtractState::Bytes(bytes),
        })
    }
}
