//! A layer that configures how bookings are read, with a handler of refusals and a predicate of
//! media types.
ghost use Rattle.std.specs.Prelude.{◌≡◌};
ghost use Rattle.example_handlers.specs.BookingLayers.{limited_layer, reader_refusal};

use http::StatusCode;
use std::alloc::Global;
use web_body::{JsonFault, JsonPayloadError, Marks, ReadFault, UrlencodedError};
use web_decoders::{AllowType, FormConfig, JsonConfig};
use web_extract::{Configs, LayerConfigs, NoHandler, NoType, Refuse};
use web_reply::{Cause, Error};
use web_request::{App, AppLayer, NoData, NoMemory, RequestHead};
use web_texts::Mime;

/// A handler of refusals: what a reader refused is answered with status 422 and the reader's
/// reason. Other refusals keep their own errors.
#[derive(Drop)]
pub struct Unprocessable;

fn reader_refusal(fault: ReadFault) -> Error
    ensures { result ≡ reader_refusal fault }
{
    Error::from(Cause::Custom {
        status: StatusCode::UNPROCESSABLE_ENTITY,
        text: fault.text,
    })
}

impl Refuse<JsonPayloadError> for Unprocessable {
    ghost use Rattle.std.specs.Prelude.{◌≡◌};
    ghost use Rattle.example_handlers.specs.BookingLayers.{json_refusal};

    ghost refuses = { λ h e head x. x ≡ json_refusal e };

    fn refuse(
        &self,
        _alloc: Global,
        fault: JsonPayloadError,
        _head: &RequestHead,
    ) -> Result<Error, NoMemory> {
        match fault {
            JsonPayloadError::Deserialize(JsonFault::Target(fault)) => Ok(reader_refusal(fault)),
            fault => Ok(Error::from(fault)),
        }
    }
}

impl Refuse<UrlencodedError> for Unprocessable {
    ghost use Rattle.std.specs.Prelude.{◌≡◌};
    ghost use Rattle.example_handlers.specs.BookingLayers.{form_refusal};

    ghost refuses = { λ h e head x. x ≡ form_refusal e };

    fn refuse(
        &self,
        _alloc: Global,
        fault: UrlencodedError,
        _head: &RequestHead,
    ) -> Result<Error, NoMemory> {
        match fault {
            UrlencodedError::Parse(fault) => Ok(reader_refusal(fault)),
            fault => Ok(Error::from(fault)),
        }
    }
}

/// A predicate: JSON is also read from bodies of the type `text/plain`, which a browser sends where
/// a script names no type.
#[derive(Drop)]
pub struct PlainText;

impl AllowType for PlainText {
    ghost use Rattle.std.specs.Prelude.{◌≡◌};
    ghost use Rattle.example_handlers.specs.BookingLayers.{is_plain_text};

    ghost allows_type = { λ p m answer. answer ≡ is_plain_text m };

    fn allows(&self, media_type: &Mime) -> bool {
        media_type.essence() == "text/plain"
    }
}

/// A layer with a configuration of JSON bodies and one of forms.
#[derive(Drop)]
pub struct BookingLayer {
    json: JsonConfig<Unprocessable, PlainText>,
    form: FormConfig<Unprocessable>,
}

impl BookingLayer {
    /// A layer that reads bodies up to this limit, in bytes.
    pub fn new(limit: usize) -> BookingLayer
        ensures { result ≡ limited_layer limit }
    {
        BookingLayer {
            json: JsonConfig::<NoHandler, NoType>::new()
                .limit(limit)
                .error_handler(Unprocessable)
                .content_type(PlainText),
            form: FormConfig::<NoHandler>::new()
                .limit(limit)
                .error_handler(Unprocessable),
        }
    }
}

impl AppLayer for BookingLayer {}

impl Configs for BookingLayer {
    ghost use Rattle.example_handlers.specs.BookingLayers.{configurations_of};

    type OnJson = Unprocessable;

    type OnForm = Unprocessable;

    type OnPath = NoHandler;

    type OnQuery = NoHandler;

    type JsonType = PlainText;

    ghost configurations = { λ layer. configurations_of layer };

    fn configurations(
        &self,
    ) -> LayerConfigs<'_, Unprocessable, Unprocessable, NoHandler, NoHandler, PlainText> {
        LayerConfigs {
            json: Some(&self.json),
            form: Some(&self.form),
            ..LayerConfigs::none()
        }
    }
}

/// An application with such layers, whose bodies are in memory.
pub struct Bookings;

impl App for Bookings {
    type Layer = BookingLayer;

    type Local = NoData;

    type Conn = NoData;

    type Source = Marks;
}
