//! The causes of error replies.
ghost use Rattle.std.specs.Prelude.{◌≡◌, ◌<◌, ◌++◌, ◌∷◌, [], IfOk, OnOk, length};
ghost use Rattle.web_reply.specs.JoinedErrors.{as_member, cause_members};

use crate::errors::error::ResponseError;
use crate::errors::several::{Causes, Member};
use http::StatusCode;
use std::alloc::Global;
use std::fmt;
use std::fmt::Display;
use web_body::{
    JsonFault, JsonPayloadError, PathError, PayloadError, QueryPayloadError, ReadFault,
    ReadlinesError, UrlencodedError, WriteFault,
};
use web_request::MissingPeerAddr;
use web_texts::{ContentTypeError, InvalidHeaderValue, NoMemory, ParseError, Text};

/// Why a header could not be set.
#[derive(Clone, Copy, Debug, PartialEq, Eq)]
pub enum HttpError {
    /// The name is not a field name (RFC 9110, section 5.1).
    Name,
    /// The value is not a field value (RFC 9110, section 5.5).
    Value,
    /// The header map holds as many headers as it can.
    MaxSize,
}

/// The kind of an input or output error.
#[derive(Clone, Copy, Debug, PartialEq, Eq)]
pub enum IoKind {
    NotFound,
    PermissionDenied,
    Other,
}

/// The cause of an error reply, which determines its status and its text.
#[derive(Debug, Drop)]
pub enum Cause {
    /// A body could not be collected: 413 for `Overflow`, otherwise 400.
    Payload(PayloadError),
    /// A JSON body gave no value, or a value could not be written as JSON: 413 above the limit, 500
    /// for `Serialize`, that of the inner error for `Payload`, otherwise 400.
    Json(JsonPayloadError),
    /// A form gave no value, or a value could not be written as a form: 413 above the limit, 411
    /// for `UnknownLength`, 415 for `ContentType`, that of the inner error for `Payload`, otherwise
    /// 400.
    Form(UrlencodedError),
    /// The parameters of a path gave no value: 400.
    Path(PathError),
    /// A query gave no value: 400.
    Query(QueryPayloadError),
    /// A line of a body could not be read: 413 above the limit, otherwise 400.
    Lines(ReadlinesError),
    /// The content type of a request is not usable: 400.
    ContentType(ContentTypeError),
    /// A header of a request could not be read: 400.
    Parse(ParseError),
    /// A typed header could not be written as a field value: 400.
    HeaderValue(InvalidHeaderValue),
    /// The address that a request came from is not known: 500.
    MissingPeer,
    /// A header could not be set: 500.
    Http(HttpError),
    /// A reader refused what it was given: 400.
    Read(ReadFault),
    /// A JSON text that no body gave could not be read: 500.
    JsonText(JsonFault),
    /// A writer refused its value: 500.
    Write(WriteFault),
    /// A text was not UTF-8: 400.
    Utf8,
    /// Input or output failed: 404 for `NotFound`, 403 for `PermissionDenied`, otherwise 500.
    Io(IoKind),
    /// Several refusals: the status of the first, and their texts, one a line.
    Several(Causes),
    /// A cause of the application, with a status and a text of its own.
    Custom { status: StatusCode, text: Text },
}

impl fmt::Display for HttpError {
    ghost use Rattle.std.specs.Prelude.{Some};
    ghost use Rattle.web_reply.specs.Causes.{http_text};

    ghost output = { λ e. Some (http_text e) };

    fn fmt<W: fmt::Write>(&self, f: &mut fmt::Formatter<W>) -> fmt::Result {
        f.write_str(match self {
            HttpError::Name => "invalid header name",
            HttpError::Value => "invalid header value",
            HttpError::MaxSize => "too many headers",
        })
    }
}

impl fmt::Display for IoKind {
    ghost use Rattle.std.specs.Prelude.{Some};
    ghost use Rattle.web_reply.specs.Causes.{io_text};

    ghost output = { λ e. Some (io_text e) };

    fn fmt<W: fmt::Write>(&self, f: &mut fmt::Formatter<W>) -> fmt::Result {
        f.write_str(match self {
            IoKind::NotFound => "not found",
            IoKind::PermissionDenied => "permission denied",
            IoKind::Other => "input or output failed",
        })
    }
}

impl fmt::Display for Cause {
    ghost use Rattle.std.specs.Prelude.{Some};
    ghost use Rattle.web_reply.specs.Causes.{cause_text};

    ghost output = { λ c. Some (cause_text c) };

    fn fmt<W: fmt::Write>(&self, f: &mut fmt::Formatter<W>) -> fmt::Result {
        match self {
            Cause::Payload(fault) => write!(f, "{fault}"),
            Cause::Json(fault) => write!(f, "{fault}"),
            Cause::Form(fault) => write!(f, "{fault}"),
            Cause::Path(fault) => write!(f, "{fault}"),
            Cause::Query(fault) => write!(f, "{fault}"),
            Cause::Lines(fault) => write!(f, "{fault}"),
            Cause::ContentType(fault) => write!(f, "{fault}"),
            Cause::Parse(fault) => write!(f, "{fault}"),
            Cause::HeaderValue(fault) => write!(f, "{fault}"),
            Cause::MissingPeer => write!(f, "{MissingPeerAddr}"),
            Cause::Http(fault) => write!(f, "{fault}"),
            Cause::Read(fault) => write!(f, "{fault}"),
            Cause::JsonText(fault) => write!(f, "{fault}"),
            Cause::Write(fault) => write!(f, "{fault}"),
            Cause::Utf8 => f.write_str("invalid UTF-8"),
            Cause::Io(kind) => write!(f, "{kind}"),
            Cause::Several(causes) => write!(f, "{causes}"),
            Cause::Custom { status: _, text } => f.write_str(text.as_str()),
        }
    }
}

impl Cause {
    /// The status and the text of this cause.
    fn as_member(&self, alloc: Global) -> Result<Member, NoMemory>
        ensures { IfOk result (λ member. member ≡ as_member self.now) }
    {
        Ok(Member {
            status: self.status_code(),
            text: Text::from(self.to_string(alloc)?),
        })
    }

    /// Appends the refusals of this cause: those of several, otherwise the one of its status and
    /// its text.
    pub(crate) fn append_members(
        self,
        alloc: Global,
        members: &mut Vec<Member>,
    ) -> Result<(), NoMemory>
        ensures members { OnOk result (members.new.items
            ≡ members.old.items ++ cause_members self) }
        ensures more { OnOk result (length members.old.items < length members.new.items) }
    {
        match self {
            Cause::Several(causes) => append_all(causes, members),
            cause => cause.append_one(alloc, members),
        }
    }

    /// Appends the one refusal of this cause.
    fn append_one(&self, alloc: Global, members: &mut Vec<Member>) -> Result<(), NoMemory>
        ensures members { OnOk result (members.new.items
            ≡ members.old.items ++ as_member self.now ∷ []) }
        ensures more { OnOk result (length members.old.items < length members.new.items) }
    {
        let member = self.as_member(alloc)?;
        members.push(member)?;
        Ok(())
    }
}

/// Appends several refusals.
fn append_all(causes: Causes, members: &mut Vec<Member>) -> Result<(), NoMemory>
    ensures members { OnOk result (members.new.items ≡ members.old.items ++ causes) }
    ensures more { OnOk result (length members.old.items < length members.new.items) }
{
    let mut own = causes.into_members();
    members.append(&mut own)?;
    Ok(())
}
