//! Why a JSON body gave no value.
ghost use Rattle.std.specs.Prelude.{◌≡◌};

use crate::message_body::PayloadError;
use std::fmt;
use web_codec::{JsonFault, WriteFault};

/// Why a JSON body was not read, or a value was not written as one.
#[derive(Debug, Drop)]
pub enum JsonPayloadError {
    /// The head declares a body of this length, in bytes, which is above the limit.
    OverflowKnownLength { length: usize, limit: usize },
    /// The body has more bytes than this limit.
    Overflow { limit: usize },
    /// The content type is required to be that of JSON, and it is not.
    ContentType,
    /// The body gives no value.
    Deserialize(JsonFault),
    /// The writer refused the value.
    Serialize(WriteFault),
    /// The body could not be read, or its head refuses it.
    Payload(PayloadError),
}

impl From<PayloadError> for JsonPayloadError {
    ghost use Rattle.web_body.specs.declared.errors.json_error.JsonPayloadError.TheVariants as json;

    ghost from_gives = { λ e made. made ≡ json.Payload e };

    fn from(error: PayloadError) -> JsonPayloadError {
        JsonPayloadError::Payload(error)
    }
}

impl fmt::Display for JsonPayloadError {
    ghost use Rattle.std.specs.Prelude.{Some};
    ghost use Rattle.web_body.specs.ErrorTexts.{json_error_text};

    ghost output = { λ e. Some (json_error_text e) };

    fn fmt<W: fmt::Write>(&self, f: &mut fmt::Formatter<W>) -> fmt::Result {
        match self {
            JsonPayloadError::OverflowKnownLength { length, limit } => write!(
                f,
                "JSON payload ({length} bytes) is larger than allowed (limit: {limit} bytes)."
            ),
            JsonPayloadError::Overflow { limit } => {
                write!(f, "JSON payload has exceeded limit ({limit} bytes).")
            }
            JsonPayloadError::ContentType => f.write_str("Content type error"),
            JsonPayloadError::Deserialize(fault) => write!(f, "Json deserialize error: {fault}"),
            JsonPayloadError::Serialize(fault) => write!(f, "Json serialize error: {fault}"),
            JsonPayloadError::Payload(fault) => {
                write!(f, "Error that occur during reading payload: {fault}")
            }
        }
    }
}
