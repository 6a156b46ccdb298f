//! Why the parts of a body end.
ghost use Rattle.std.specs.Prelude.{◌≡◌, IfOk};
ghost use Rattle.web_reply.specs.Replies.{fault_of};
ghost use Rattle.web_reply.specs.declared.errors.cause.Cause.TheVariants.{Custom};
ghost use Rattle.web_multipart_stream.specs.MultipartErrors.{multipart_fault, multipart_status};

use http::StatusCode;
use std::alloc::Global;
use std::fmt;
use web_body::PayloadError;
use web_multipart_parts::PartError;
use web_reply::{Cause, Error, ResponseError};
use web_texts::{NoMemory, Text};

/// Why a body gives no further part. Nothing follows.
#[derive(Clone, Copy, Debug, PartialEq, Eq)]
pub enum MultipartError {
    /// The first Content-Type is not `multipart/form-data` (RFC 7578, section 4.1), or has no
    /// boundary (RFC 2046, section 5.1.1) of 1 to 70 printable ASCII characters and spaces, the
    /// last of which is no space. The payload is left. 415.
    ContentType,
    /// The content of a part has more bytes than the limit. 413.
    PartOverflow,
    /// There are more than 64 parts. 413.
    TooMany,
    /// A boundary is followed by neither a part nor the end, a head has no end within 4,096 bytes,
    /// or the body ends before its close-delimiter. 400.
    Grammar,
    /// A head has a line that is no header field or more than 16 lines, is not form data with a
    /// name (RFC 7578, section 4.2), or has a Content-Type that is no media type. 400.
    Head,
    /// Reading failed before the close-delimiter, or the body has a content coding, in which case
    /// the payload is taken. The status and the text are those of the error.
    Payload(PayloadError),
}

impl fmt::Display for MultipartError {
    ghost use Rattle.std.specs.Prelude.{Some};
    ghost use Rattle.web_multipart_stream.specs.MultipartErrors.{multipart_error_text};

    ghost output = { λ error. Some (multipart_error_text error) };

    fn fmt<W: fmt::Write>(&self, f: &mut fmt::Formatter<W>) -> fmt::Result {
        match self {
            MultipartError::ContentType => f.write_str("multipart type or boundary is missing"),
            MultipartError::PartOverflow => f.write_str("part reached its limit"),
            MultipartError::TooMany => f.write_str("too many parts"),
            MultipartError::Grammar => f.write_str("multipart grammar"),
            MultipartError::Head => f.write_str("part head"),
            MultipartError::Payload(error) => write!(f, "{error}"),
        }
    }
}

impl From<PartError> for MultipartError {
    ghost use Rattle.std.specs.Prelude.{◌≡◌};
    ghost use Rattle.web_multipart_stream.specs.MultipartErrors.{multipart_error};

    ghost from_gives = { λ error e. e ≡ multipart_error error };

    fn from(error: PartError) -> MultipartError {
        match error {
            PartError::Grammar => MultipartError::Grammar,
            PartError::Head => MultipartError::Head,
            PartError::TooMany => MultipartError::TooMany,
            PartError::PartOverflow => MultipartError::PartOverflow,
        }
    }
}

impl From<PayloadError> for MultipartError {
    ghost use Rattle.std.specs.Prelude.{◌≡◌};
    ghost use Rattle.web_multipart_stream.specs.declared.error.MultipartError.TheVariants.{Payload};

    ghost from_gives = { λ error e. e ≡ Payload error };

    fn from(error: PayloadError) -> MultipartError {
        MultipartError::Payload(error)
    }
}

impl MultipartError {
    /// The status of its reply.
    pub fn status_code(&self) -> StatusCode
        ensures { result ≡ multipart_status self.now }
    {
        match self {
            MultipartError::ContentType => StatusCode::UNSUPPORTED_MEDIA_TYPE,
            MultipartError::PartOverflow | MultipartError::TooMany => StatusCode::PAYLOAD_TOO_LARGE,
            MultipartError::Grammar | MultipartError::Head => StatusCode::BAD_REQUEST,
            MultipartError::Payload(error) => Cause::Payload(*error).status_code(),
        }
    }

    /// The error of a handler or of an argument: its cause is `Cause::Custom` with this status and
    /// text.
    pub fn into_error(self, alloc: Global) -> Result<Error, NoMemory>
        ensures { IfOk result (λ error. error ≡ multipart_fault self) }
    {
        let text = Text::from(self.to_string(alloc)?);
        Ok(Error::from(Cause::Custom {
            status: self.status_code(),
            text,
        }))
    }
}
