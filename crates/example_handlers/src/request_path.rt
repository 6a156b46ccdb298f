//! An argument of one's own.

use std::alloc::Global;
use web_body::Payload;
use web_extract::{FromRequest, Never, Ready};
use web_request::{App, HttpRequest, NoMemory, Text};

/// The path of the request's target, as an argument. It leaves the body to the other arguments.
#[derive(Debug, Drop)]
pub struct RequestPath(pub Text);

impl<A: App> FromRequest<A> for RequestPath {
    ghost use Rattle.std.specs.Prelude.{◌≡◌, Ok, refl};
    ghost use Rattle.web_request.specs.Head.{head_path};
    ghost use Rattle.web_extract.specs.Never.{never_converted};

    type Error = Never;

    type Future = Ready<Result<RequestPath, Never>>;

    ghost means = { λ q m rest n x.
        (rest ≡ m) × (n ≡ 0) × (x ≡ Ok (record { 0 = head_path q.head })) };

    ghost some = { λ q m none.
        none m 0 (Ok (record { 0 = head_path q.head })) (refl, refl, refl) };

    ghost converted = { never_converted };

    fn from_request(
        alloc: Global,
        req: &HttpRequest<A>,
        _payload: &mut Payload<A::Source>,
    ) -> Result<Ready<Result<RequestPath, Never>>, NoMemory> {
        let path = Text::of(alloc, req.path())?;
        Ok(Ready::new(Ok(RequestPath(path))))
    }
}
