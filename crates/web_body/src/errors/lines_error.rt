//! Why the lines of a body end.

use crate::message_body::PayloadError;
use std::fmt;
use web_texts::ContentTypeError;

/// Why a line of a body could not be read. No line follows.
#[derive(Clone, Copy, Debug, PartialEq, Eq)]
pub enum ReadlinesError {
    /// The line is not UTF-8.
    EncodingError,
    /// Reading failed.
    Payload(PayloadError),
    /// The line has more bytes than the limit.
    LimitOverflow,
    /// The media type of the message cannot be read, or its charset is not UTF-8.
    ContentTypeError(ContentTypeError),
}

impl fmt::Display for ReadlinesError {
    ghost use Rattle.std.specs.Prelude.{Some};
    ghost use Rattle.web_body.specs.LinesErrorTexts.{lines_error_text};

    ghost output = { λ error. Some (lines_error_text error) };

    fn fmt<W: fmt::Write>(&self, f: &mut fmt::Formatter<W>) -> fmt::Result {
        match self {
            ReadlinesError::EncodingError => f.write_str("Encoding error"),
            ReadlinesError::Payload(error) => {
                write!(f, "Error that occur during reading payload: {error}")
            }
            ReadlinesError::LimitOverflow => f.write_str("Line limit exceeded"),
            ReadlinesError::ContentTypeError(_) => f.write_str("Content-type error"),
        }
    }
}

impl From<PayloadError> for ReadlinesError {
    ghost use Rattle.std.specs.Prelude.{◌≡◌};
    ghost use Rattle.web_body.specs.declared.errors.lines_error.ReadlinesError.TheVariants as lines;

    ghost from_gives = { λ e error. error ≡ lines.Payload e };

    fn from(error: PayloadError) -> ReadlinesError {
        ReadlinesError::Payload(error)
    }
}

impl From<ContentTypeError> for ReadlinesError {
    ghost use Rattle.std.specs.Prelude.{◌≡◌};
    ghost use Rattle.web_body.specs.declared.errors.lines_error.ReadlinesError.TheVariants as lines;

    ghost from_gives = { λ e error. error ≡ lines.ContentTypeError e };

    fn from(error: ContentTypeError) -> ReadlinesError {
        ReadlinesError::ContentTypeError(error)
    }
}
