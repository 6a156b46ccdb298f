//! The handlers and the predicate that a layer of the demo may configure.
ghost use Rattle.std.specs.Prelude.{◌≡◌, IfOk, IfSome};
ghost use Rattle.demo_app.specs.Teapots.{teapot};

use http::StatusCode;
use std::alloc::Global;
use std::fmt;
use web_body::{JsonPayloadError, PathError, QueryPayloadError, UrlencodedError};
use web_decoders::AllowType;
use web_extract::Refuse;
use web_reply::{Cause, Error};
use web_request::RequestHead;
use web_texts::{Mime, NoMemory, Text};

/// A handler of refusals: each becomes a status of 418 with the refusal's own text.
#[derive(Debug, Drop)]
pub struct Teapot;

/// Status 418 with the text that the refusal prints.
fn teapot_error<E: fmt::Display>(alloc: Global, fault: &E) -> Result<Error, NoMemory>
    ensures { IfOk result (λ x. IfSome (E.output fault.now) (λ text. x ≡ teapot text)) }
{
    let text = Text::from(fault.to_string(alloc)?);
    Ok(Error::from(Cause::Custom {
        status: StatusCode::IM_A_TEAPOT,
        text,
    }))
}

impl Refuse<JsonPayloadError> for Teapot {
    ghost use Rattle.demo_app.specs.Teapots.{json_teapot};

    ghost refuses = { λ handler fault head x. x ≡ json_teapot handler fault head };

    fn refuse(
        &self,
        alloc: Global,
        fault: JsonPayloadError,
        _head: &RequestHead,
    ) -> Result<Error, NoMemory> {
        teapot_error(alloc, &fault)
    }
}

impl Refuse<UrlencodedError> for Teapot {
    ghost use Rattle.demo_app.specs.Teapots.{form_teapot};

    ghost refuses = { λ handler fault head x. x ≡ form_teapot handler fault head };

    fn refuse(
        &self,
        alloc: Global,
        fault: UrlencodedError,
        _head: &RequestHead,
    ) -> Result<Error, NoMemory> {
        teapot_error(alloc, &fault)
    }
}

impl Refuse<PathError> for Teapot {
    ghost use Rattle.demo_app.specs.Teapots.{path_teapot};

    ghost refuses = { λ handler fault head x. x ≡ path_teapot handler fault head };

    fn refuse(
        &self,
        alloc: Global,
        fault: PathError,
        _head: &RequestHead,
    ) -> Result<Error, NoMemory> {
        teapot_error(alloc, &fault)
    }
}

impl Refuse<QueryPayloadError> for Teapot {
    ghost use Rattle.demo_app.specs.Teapots.{query_teapot};

    ghost refuses = { λ handler fault head x. x ≡ query_teapot handler fault head };

    fn refuse(
        &self,
        alloc: Global,
        fault: QueryPayloadError,
        _head: &RequestHead,
    ) -> Result<Error, NoMemory> {
        teapot_error(alloc, &fault)
    }
}

/// A predicate of media types: `text/x-json` without parameters, and no other.
#[derive(Debug, Drop)]
pub struct VendorType;

impl AllowType for VendorType {
    ghost use Rattle.demo_app.specs.Teapots.{is_vendor_type};

    ghost allows_type = { λ predicate media_type answer.
        answer ≡ is_vendor_type predicate media_type };

    fn allows(&self, media_type: &Mime) -> bool {
        media_type.essence() == "text/x-json" && media_type.params().is_empty()
    }
}
