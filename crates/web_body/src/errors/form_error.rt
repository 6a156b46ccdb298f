//! Why a form gave no value.
ghost use Rattle.std.specs.Prelude.{◌≡◌};

use crate::message_body::PayloadError;
use std::fmt;
use web_codec::{ReadFault, WriteFault};

/// Why a form was not read, or a value was not written as one.
#[derive(Debug, Drop)]
pub enum UrlencodedError {
    /// The body is chunked. No call returns it.
    Chunked,
    /// The body has `size` bytes, by its head or by the first pieces that pass the limit.
    Overflow { size: usize, limit: usize },
    /// The first Content-Length (RFC 9110, section 8.6) is not digits alone, or is greater than a
    /// `usize` can be.
    UnknownLength,
    /// The content type is not that of a form, or its charset is not UTF-8.
    ContentType,
    /// The reader refused the pairs.
    Parse(ReadFault),
    /// The charset is not usable. No call returns it.
    Encoding,
    /// The writer refused the value.
    Serialize(WriteFault),
    /// The body could not be read, or its head names a coding.
    Payload(PayloadError),
}

impl From<PayloadError> for UrlencodedError {
    ghost use Rattle.web_body.specs.declared.errors.form_error.UrlencodedError.TheVariants as form;

    ghost from_gives = { λ e made. made ≡ form.Payload e };

    fn from(error: PayloadError) -> UrlencodedError {
        UrlencodedError::Payload(error)
    }
}

impl From<ReadFault> for UrlencodedError {
    ghost use Rattle.web_body.specs.declared.errors.form_error.UrlencodedError.TheVariants as form;

    ghost from_gives = { λ e made. made ≡ form.Parse e };

    fn from(error: ReadFault) -> UrlencodedError {
        UrlencodedError::Parse(error)
    }
}

impl From<WriteFault> for UrlencodedError {
    ghost use Rattle.web_body.specs.declared.errors.form_error.UrlencodedError.TheVariants as form;

    ghost from_gives = { λ e made. made ≡ form.Serialize e };

    fn from(error: WriteFault) -> UrlencodedError {
        UrlencodedError::Serialize(error)
    }
}

impl fmt::Display for UrlencodedError {
    ghost use Rattle.std.specs.Prelude.{Some};
    ghost use Rattle.web_body.specs.ErrorTexts.{form_error_text};

    ghost output = { λ e. Some (form_error_text e) };

    fn fmt<W: fmt::Write>(&self, f: &mut fmt::Formatter<W>) -> fmt::Result {
        match self {
            UrlencodedError::Chunked => f.write_str("Can not decode chunked transfer encoding."),
            UrlencodedError::Overflow { size, limit } => write!(
                f,
                "URL encoded payload is larger ({size} bytes) than allowed (limit: {limit} bytes)."
            ),
            UrlencodedError::UnknownLength => f.write_str("Payload size is now known."),
            UrlencodedError::ContentType => f.write_str("Content type error."),
            UrlencodedError::Parse(fault) => write!(f, "Parse error: {fault}."),
            UrlencodedError::Encoding => f.write_str("Encoding error."),
            UrlencodedError::Serialize(fault) => write!(f, "Serialize error: {fault}."),
            UrlencodedError::Payload(fault) => {
                write!(f, "Error that occur during reading payload: {fault}.")
            }
        }
    }
}
