//! An argument that refuses with a status and a text of its own.

use http::StatusCode;
use std::alloc::Global;
use web_body::Payload;
use web_extract::{FromRequest, Ready};
use web_reply::{Cause, Error};
use web_request::{App, HttpRequest, NoMemory, Text};

/// The value of the header X-Api-Key. Without one, or with one that is no header text, the request
/// is refused with 401.
#[derive(Debug, Drop)]
pub struct ApiKey(pub Text);

fn missing_key(alloc: Global) -> Result<Error, NoMemory> {
    Ok(Error::from(Cause::Custom {
        status: StatusCode::UNAUTHORIZED,
        text: Text::of(alloc, "a key is missing")?,
    }))
}

/// The key that a request has.
fn key_of<A: App>(alloc: Global, req: &HttpRequest<A>) -> Result<Result<ApiKey, Error>, NoMemory> {
    match req.headers().get("x-api-key") {
        Some(value) => match value.to_str() {
            Ok(text) => Ok(Ok(ApiKey(Text::of(alloc, text)?))),
            Err(_) => Ok(Err(missing_key(alloc)?)),
        },
        None => Ok(Err(missing_key(alloc)?)),
    }
}

impl<A: App> FromRequest<A> for ApiKey {
    ghost use Rattle.std.specs.Prelude.{◌≡◌, [], Ok, refl};
    ghost use Rattle.web_extract.specs.SomeAnswer.{itself};

    type Error = Error;

    type Future = Ready<Result<ApiKey, Error>>;

    ghost means = { λ q m rest n x. (rest ≡ m) × (n ≡ 0) };

    ghost some = { λ q m none. none m 0 (Ok (record { 0 = [] })) (refl, refl) };

    ghost converted = { itself };

    fn from_request(
        alloc: Global,
        req: &HttpRequest<A>,
        _payload: &mut Payload<A::Source>,
    ) -> Result<Ready<Result<ApiKey, Error>>, NoMemory> {
        Ok(Ready::new(key_of(alloc, req)?))
    }
}
