//! Errors and their replies.
ghost use Rattle.std.specs.Prelude.{◌≡◌, ◌<◌, ℕ, IfOk, OnOk, OnErr, Some, length};
ghost use Rattle.web_reply.specs.Causes.{form_status, json_status, lines_status, payload_status};
ghost use Rattle.web_reply.specs.JoinedErrors.{join, members};
ghost use Rattle.web_reply.specs.PreparedReplies.{prepared_map};
ghost use Rattle.web_reply.specs.Replies.{Reply, after_giving, default_reply, given_reply};
ghost use Rattle.web_reply.specs.Replies.{fault_of};
ghost use Rattle.web_reply.specs.declared.body.WholeBody.{WholeBody};
ghost use Rattle.web_reply.specs.declared.errors.cause.Cause.TheVariants.{Several};
ghost use Rattle.web_reply.specs.declared.errors.prepared.Prepared.TheVariants.{Never};

use crate::body::WholeBody;
use crate::errors::cause::{Cause, HttpError, IoKind};
use crate::errors::prepared::Prepared;
use crate::errors::several::Causes;
use crate::response::HttpResponse;
use crate::typed::{PLAIN_TEXT, typed};
use bytes::Bytes;
use http::StatusCode;
use std::alloc::Global;
use std::fmt;
use std::fmt::Display;
use std::marker::Model;
use web_body::{
    JsonFault, JsonPayloadError, PathError, PayloadError, QueryPayloadError, ReadFault,
    ReadlinesError, UrlencodedError, WriteFault,
};
use web_request::MissingPeerAddr;
use web_texts::{ContentTypeError, InvalidHeaderValue, NoMemory, ParseError};

/// A result whose error becomes a reply.
pub type Result<T, E = Error> = std::result::Result<T, E>;

/// An error that has a reply of its own.
pub trait ResponseError: Display {
    /// The status of its reply.
    ghost status: { Self → ℕ };

    /// The replies that it may have.
    ghost replies: { Self → Reply WholeBody → Type 0 };

    /// Its value after its reply was made.
    ghost after: { Self → Self };

    fn status_code(&self) -> StatusCode
        ensures { result ≡ status self.now };

    /// Its reply. Where allocation fails, the error is unchanged.
    fn error_response(&mut self, alloc: Global) -> Result<HttpResponse<WholeBody>, NoMemory>
        ensures value { IfOk result (λ reply. replies self.old reply) }
        ensures after { OnOk result (self.new ≡ after self.old) }
        ensures kept { OnErr result (self.new ≡ self.old) };
}

impl ResponseError for Cause {
    ghost use Rattle.std.specs.Prelude.{◌≡◌};
    ghost use Rattle.web_reply.specs.Causes.{cause_status};
    ghost use Rattle.web_reply.specs.Replies.{default_reply};

    ghost status = { cause_status };

    ghost replies = { λ cause reply. reply ≡ default_reply cause };

    ghost after = { λ cause. cause };

    fn status_code(&self) -> StatusCode {
        match self {
            Cause::Payload(fault) => payload_status(fault),
            Cause::Json(fault) => json_status(fault),
            Cause::Form(fault) => form_status(fault),
            Cause::Path(_) | Cause::Query(_) => StatusCode::BAD_REQUEST,
            Cause::Lines(fault) => lines_status(fault),
            Cause::ContentType(_) | Cause::Parse(_) | Cause::HeaderValue(_) => {
                StatusCode::BAD_REQUEST
            }
            Cause::MissingPeer | Cause::Http(_) => StatusCode::INTERNAL_SERVER_ERROR,
            Cause::Read(_) | Cause::Utf8 => StatusCode::BAD_REQUEST,
            Cause::JsonText(_) | Cause::Write(_) => StatusCode::INTERNAL_SERVER_ERROR,
            Cause::Io(IoKind::NotFound) => StatusCode::NOT_FOUND,
            Cause::Io(IoKind::PermissionDenied) => StatusCode::FORBIDDEN,
            Cause::Io(IoKind::Other) => StatusCode::INTERNAL_SERVER_ERROR,
            Cause::Several(causes) => causes.status(),
            Cause::Custom { status, text: _ } => *status,
        }
    }

    fn error_response(&mut self, alloc: Global) -> Result<HttpResponse<WholeBody>, NoMemory> {
        self.reply(alloc)
    }
}

impl Cause {
    /// The reply to this cause: its status, and its text as `text/plain; charset=utf-8`.
    pub(crate) fn reply(&self, alloc: Global) -> Result<HttpResponse<WholeBody>, NoMemory>
        ensures { IfOk result (λ reply. reply ≡ default_reply self.now) }
    {
        let text = self.to_string(alloc)?;
        typed(
            alloc,
            self.status_code(),
            PLAIN_TEXT,
            Bytes::from_string(text)?,
        )
    }
}

fn payload_status(fault: &PayloadError) -> StatusCode
    ensures { result ≡ payload_status fault.now }
{
    match fault {
        PayloadError::Overflow => StatusCode::PAYLOAD_TOO_LARGE,
        PayloadError::UnknownLength | PayloadError::Io | PayloadError::UnsupportedEncoding => {
            StatusCode::BAD_REQUEST
        }
    }
}

fn json_status(fault: &JsonPayloadError) -> StatusCode
    ensures { result ≡ json_status fault.now }
{
    match fault {
        JsonPayloadError::OverflowKnownLength { .. } | JsonPayloadError::Overflow { .. } => {
            StatusCode::PAYLOAD_TOO_LARGE
        }
        JsonPayloadError::ContentType | JsonPayloadError::Deserialize(_) => StatusCode::BAD_REQUEST,
        JsonPayloadError::Serialize(_) => StatusCode::INTERNAL_SERVER_ERROR,
        JsonPayloadError::Payload(fault) => payload_status(fault),
    }
}

fn form_status(fault: &UrlencodedError) -> StatusCode
    ensures { result ≡ form_status fault.now }
{
    match fault {
        UrlencodedError::Overflow { .. } => StatusCode::PAYLOAD_TOO_LARGE,
        UrlencodedError::UnknownLength => StatusCode::LENGTH_REQUIRED,
        UrlencodedError::ContentType => StatusCode::UNSUPPORTED_MEDIA_TYPE,
        UrlencodedError::Chunked | UrlencodedError::Encoding => StatusCode::BAD_REQUEST,
        UrlencodedError::Parse(_) | UrlencodedError::Serialize(_) => StatusCode::BAD_REQUEST,
        UrlencodedError::Payload(fault) => payload_status(fault),
    }
}

fn lines_status(fault: &ReadlinesError) -> StatusCode
    ensures { result ≡ lines_status fault.now }
{
    match fault {
        ReadlinesError::LimitOverflow => StatusCode::PAYLOAD_TOO_LARGE,
        ReadlinesError::EncodingError
        | ReadlinesError::Payload(_)
        | ReadlinesError::ContentTypeError(_) => StatusCode::BAD_REQUEST,
    }
}

/// The error of a handler or of one of its arguments: a cause, from which the reply is made, unless
/// a reply was prepared.
///
/// A prepared reply is in a `Box`, since few errors have one.
#[derive(Debug, Drop)]
pub struct Error {
    cause: Cause,
    prepared: Prepared<Box<HttpResponse<WholeBody>>>,
}

impl Model for Error {
    ghost use Rattle.web_reply.specs.PreparedReplies.{prepared_map};
    ghost use Rattle.web_reply.specs.Replies.{Fault};

    ghost Value = { Fault };

    ghost view = { λ e. record {
      cause = e.cause;
      prepared = prepared_map (λ reply. reply.value) e.prepared;
    } };
}

impl Error {
    pub fn cause(&self) -> &Cause
        ensures { result.now ≡ self.now.cause }
    {
        &self.cause
    }

    /// The cause, as the `ResponseError` that makes the reply.
    pub fn as_response_error(&self) -> &Cause
        ensures { result.now ≡ self.now.cause }
    {
        &self.cause
    }

    /// The reply: a prepared one once, then an empty 500; where none was prepared, that to the
    /// cause. Where allocation fails, the error is unchanged; a prepared one and the empty 500
    /// take no memory.
    pub fn error_response(&mut self, alloc: Global) -> Result<HttpResponse<WholeBody>, NoMemory>
        ensures value { IfOk result (λ reply. reply ≡ given_reply self.old) }
        ensures after { OnOk result (self.new ≡ after_giving self.old) }
        ensures kept { OnErr result (self.new ≡ self.old) }
        ensures memory { OnErr result (self.old.prepared ≡ Never) }
    {
        match self.prepared.give() {
            Prepared::Never => self.cause.error_response(alloc),
            Prepared::Held(reply) => Ok(Box::into_inner(reply)),
            Prepared::Given => Ok(HttpResponse::new(alloc, StatusCode::INTERNAL_SERVER_ERROR)),
        }
    }

    /// The errors as one. A single error is given back as it is, which takes no memory. Of two or
    /// more the cause is `Cause::Several`: the status and the text of each cause in order, where a
    /// cause that is `Several` itself stands by its own. Nothing is kept of replies that were
    /// prepared and of mappers.
    pub fn join(alloc: Global, mut errors: Vec<Error>) -> Result<Error, NoMemory>
        requires some { 0 < length errors.items }
        ensures value { IfOk result (λ error. join errors.items ≡ Some error) }
        ensures memory { OnErr result (1 < length errors.items) }
    {
        if errors.len() > 1 {
            return join_all(alloc, errors);
        }
        Ok(errors.swap_remove(0))
    }

    /// An error of this cause, with its reply prepared.
    pub(crate) fn with_prepared(
        cause: Cause,
        prepared: Prepared<Box<HttpResponse<WholeBody>>>,
    ) -> Error
        ensures { result ≡ record {
          cause = cause;
          prepared = prepared_map (λ reply. reply.value) prepared;
        } }
    {
        Error { cause, prepared }
    }

    /// A copy of the reply that `error_response` gives next.
    pub(crate) fn copied_response(&self, alloc: Global) -> Result<HttpResponse<WholeBody>, NoMemory>
        ensures { IfOk result (λ reply. reply ≡ given_reply self.now) }
    {
        match &self.prepared {
            Prepared::Never => self.cause.reply(alloc),
            Prepared::Held(reply) => reply.copy(alloc),
            Prepared::Given => Ok(HttpResponse::new(alloc, StatusCode::INTERNAL_SERVER_ERROR)),
        }
    }

    /// Notes that the reply was given.
    pub(crate) fn note_given(&mut self)
        ensures { self.new ≡ after_giving self.old }
    {
        self.prepared.give();
    }

    pub(crate) fn into_cause(self) -> Cause
        ensures { result ≡ self.cause }
    {
        self.cause
    }
}

/// Two errors or more as one.
fn join_all(alloc: Global, errors: Vec<Error>) -> Result<Error, NoMemory>
    requires several { 1 < length errors.items }
    ensures { IfOk result (λ error. error ≡ fault_of (Several (members errors.items))) }
{
    let mut members = Vec::new(alloc);
    for error in errors {
        error.into_cause().append_members(alloc, &mut members)?;
    }
    Ok(Error::from(Cause::Several(Causes::new(members))))
}

impl From<Cause> for Error {
    ghost use Rattle.web_reply.specs.Replies.{fault_of};

    ghost from_gives = { λ cause e. e ≡ fault_of cause };

    fn from(cause: Cause) -> Error {
        Error {
            cause,
            prepared: Prepared::Never,
        }
    }
}

impl From<PayloadError> for Error {
    ghost use Rattle.web_reply.specs.Replies.{fault_of};
    ghost use Rattle.web_reply.specs.declared.errors.cause.Cause.TheVariants.{Payload};

    ghost from_gives = { λ fault e. e ≡ fault_of (Payload fault) };

    fn from(fault: PayloadError) -> Error {
        Error::from(Cause::Payload(fault))
    }
}

impl From<ContentTypeError> for Error {
    ghost use Rattle.web_reply.specs.Replies.{fault_of};
    ghost use Rattle.web_reply.specs.declared.errors.cause.Cause.TheVariants.{ContentType};

    ghost from_gives = { λ fault e. e ≡ fault_of (ContentType fault) };

    fn from(fault: ContentTypeError) -> Error {
        Error::from(Cause::ContentType(fault))
    }
}

impl From<ParseError> for Error {
    ghost use Rattle.web_reply.specs.Replies.{fault_of};
    ghost use Rattle.web_reply.specs.declared.errors.cause.Cause.TheVariants.{Parse};

    ghost from_gives = { λ fault e. e ≡ fault_of (Parse fault) };

    fn from(fault: ParseError) -> Error {
        Error::from(Cause::Parse(fault))
    }
}

impl From<InvalidHeaderValue> for Error {
    ghost use Rattle.web_reply.specs.Replies.{fault_of};
    ghost use Rattle.web_reply.specs.declared.errors.cause.Cause.TheVariants.{HeaderValue};

    ghost from_gives = { λ fault e. e ≡ fault_of (HeaderValue fault) };

    fn from(fault: InvalidHeaderValue) -> Error {
        Error::from(Cause::HeaderValue(fault))
    }
}

impl From<JsonPayloadError> for Error {
    ghost use Rattle.web_reply.specs.Replies.{fault_of};
    ghost use Rattle.web_reply.specs.declared.errors.cause.Cause.TheVariants.{Json};

    ghost from_gives = { λ fault e. e ≡ fault_of (Json fault) };

    fn from(fault: JsonPayloadError) -> Error {
        Error::from(Cause::Json(fault))
    }
}

impl From<UrlencodedError> for Error {
    ghost use Rattle.web_reply.specs.Replies.{fault_of};
    ghost use Rattle.web_reply.specs.declared.errors.cause.Cause.TheVariants.{Form};

    ghost from_gives = { λ fault e. e ≡ fault_of (Form fault) };

    fn from(fault: UrlencodedError) -> Error {
        Error::from(Cause::Form(fault))
    }
}

impl From<PathError> for Error {
    ghost use Rattle.web_reply.specs.Replies.{fault_of};
    ghost use Rattle.web_reply.specs.declared.errors.cause.Cause.TheVariants.{Path};

    ghost from_gives = { λ fault e. e ≡ fault_of (Path fault) };

    fn from(fault: PathError) -> Error {
        Error::from(Cause::Path(fault))
    }
}

impl From<QueryPayloadError> for Error {
    ghost use Rattle.web_reply.specs.Replies.{fault_of};
    ghost use Rattle.web_reply.specs.declared.errors.cause.Cause.TheVariants.{Query};

    ghost from_gives = { λ fault e. e ≡ fault_of (Query fault) };

    fn from(fault: QueryPayloadError) -> Error {
        Error::from(Cause::Query(fault))
    }
}

impl From<ReadlinesError> for Error {
    ghost use Rattle.web_reply.specs.Replies.{fault_of};
    ghost use Rattle.web_reply.specs.declared.errors.cause.Cause.TheVariants.{Lines};

    ghost from_gives = { λ fault e. e ≡ fault_of (Lines fault) };

    fn from(fault: ReadlinesError) -> Error {
        Error::from(Cause::Lines(fault))
    }
}

impl From<MissingPeerAddr> for Error {
    ghost use Rattle.web_reply.specs.Replies.{fault_of};
    ghost use Rattle.web_reply.specs.declared.errors.cause.Cause.TheVariants.{MissingPeer};

    ghost from_gives = { λ fault e. e ≡ fault_of MissingPeer };

    fn from(_fault: MissingPeerAddr) -> Error {
        Error::from(Cause::MissingPeer)
    }
}

impl From<ReadFault> for Error {
    ghost use Rattle.web_reply.specs.Replies.{fault_of};
    ghost use Rattle.web_reply.specs.declared.errors.cause.Cause.TheVariants.{Read};

    ghost from_gives = { λ fault e. e ≡ fault_of (Read fault) };

    fn from(fault: ReadFault) -> Error {
        Error::from(Cause::Read(fault))
    }
}

impl From<JsonFault> for Error {
    ghost use Rattle.web_reply.specs.Replies.{fault_of};
    ghost use Rattle.web_reply.specs.declared.errors.cause.Cause.TheVariants.{JsonText};

    ghost from_gives = { λ fault e. e ≡ fault_of (JsonText fault) };

    fn from(fault: JsonFault) -> Error {
        Error::from(Cause::JsonText(fault))
    }
}

impl From<WriteFault> for Error {
    ghost use Rattle.web_reply.specs.Replies.{fault_of};
    ghost use Rattle.web_reply.specs.declared.errors.cause.Cause.TheVariants.{Write};

    ghost from_gives = { λ fault e. e ≡ fault_of (Write fault) };

    fn from(fault: WriteFault) -> Error {
        Error::from(Cause::Write(fault))
    }
}

impl From<HttpError> for Error {
    ghost use Rattle.web_reply.specs.Replies.{fault_of};
    ghost use Rattle.web_reply.specs.declared.errors.cause.Cause.TheVariants.{Http};

    ghost from_gives = { λ fault e. e ≡ fault_of (Http fault) };

    fn from(fault: HttpError) -> Error {
        Error::from(Cause::Http(fault))
    }
}

impl From<IoKind> for Error {
    ghost use Rattle.web_reply.specs.Replies.{fault_of};
    ghost use Rattle.web_reply.specs.declared.errors.cause.Cause.TheVariants.{Io};

    ghost from_gives = { λ kind e. e ≡ fault_of (Io kind) };

    fn from(kind: IoKind) -> Error {
        Error::from(Cause::Io(kind))
    }
}

impl fmt::Display for Error {
    ghost use Rattle.std.specs.Prelude.{Some};
    ghost use Rattle.web_reply.specs.Causes.{cause_text};

    ghost output = { λ e. Some (cause_text e.cause) };

    fn fmt<W: fmt::Write>(&self, f: &mut fmt::Formatter<W>) -> fmt::Result {
        self.cause.fmt(f)
    }
}
