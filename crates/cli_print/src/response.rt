//! The text of a response.
ghost use Rattle.std.specs.Prelude.{◌≡◌, ◌++◌, OnOk, codes};
ghost use Rattle.web_reply.specs.ResponseBodies.{box_plain};
ghost use Rattle.web_reply.specs.Replies.{plain_reply};
ghost use Rattle.cli_print.specs.OutcomeText.{connection_text, head_text, reason_text, reply_text};
ghost use Rattle.cli_print.specs.TextLines.{numbered_text};

use crate::body::put_body;
use crate::header_lines::put_headers;
use crate::lines::{put, put_line, put_numbered};
use std::alloc::Global;
use web_body::Marks;
use web_reply::{BoxBody, ConnectionType, HttpResponse, Reason, ResponseHead};
use web_texts::NoMemory;

fn put_reason(out: &mut Vec<u8>, reason: &Option<Reason>) -> Result<(), NoMemory>
    ensures { OnOk result (out.new.items ≡ out.old.items ++ reason_text reason.now) }
{
    match reason {
        Some(reason) => put_line(out, b"reason ", reason.as_str().as_bytes()),
        None => Ok(()),
    }
}

fn put_connection(out: &mut Vec<u8>, connection: Option<ConnectionType>) -> Result<(), NoMemory>
    ensures { OnOk result (out.new.items ≡ out.old.items ++ connection_text connection) }
{
    match connection {
        Some(ConnectionType::KeepAlive) => put(out, b"connection keep-alive\n"),
        Some(ConnectionType::Close) => put(out, b"connection close\n"),
        Some(ConnectionType::Upgrade) => put(out, b"connection upgrade\n"),
        None => Ok(()),
    }
}

/// The line of a status. That of the usual one is written as one text.
fn put_status_line(out: &mut Vec<u8>, status: u16) -> Result<(), NoMemory>
    ensures { OnOk result (out.new.items
        ≡ out.old.items ++ numbered_text (codes "status ") status) }
{
    if status == 200 {
        return put(out, b"status 200\n");
    }
    put_numbered(out, b"status ", u64::from(status))
}

fn put_head(alloc: Global, out: &mut Vec<u8>, head: &ResponseHead) -> Result<(), NoMemory>
    ensures { OnOk result (out.new.items ≡ out.old.items ++ head_text head.now) }
{
    put_status_line(out, head.status.as_u16())?;
    put_reason(out, &head.reason)?;
    put_connection(out, head.connection)?;
    put_headers(alloc, out, &head.headers)
}

/// The head and the body, without the version. Sorting the headers allocates a list of their names.
pub(crate) fn put_response(
    alloc: Global,
    out: &mut Vec<u8>,
    response: &HttpResponse<BoxBody<Marks>>,
) -> Result<(), NoMemory>
    ensures { OnOk result (out.new.items
        ≡ out.old.items ++ reply_text (plain_reply (box_plain (λ feed. feed)) response.now)) }
{
    put_head(alloc, out, response.head())?;
    put_body(out, response.body())
}
