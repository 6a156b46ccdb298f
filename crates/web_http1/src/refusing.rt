//! Replies to messages that are refused, by the settings of a server.
ghost use Rattle.std.specs.Prelude.{◌≡◌, ◌++◌, OnErr, OnOk, option_map};
ghost use Rattle.web_messages.specs.Progress.{IsProgress};
ghost use Rattle.web_http1.specs.Connections.{AllOpen};
ghost use Rattle.web_http1.specs.RefusalReplies.{FinishesAs, RefusesAs, closing_text, own_reply};
ghost use Rattle.web_http1.specs.RefusalReplies.{first_reply, refusal_text};

use crate::answering::Rooms;
use crate::beginning::put_begun_head;
use crate::due_body::BodyFraming;
use crate::ended::Ended;
use crate::reply::refusal_status;
use crate::settings::ReplySettings;
use crate::text::put_both;
use bytes::Bytes;
use http::StatusCode;
use http_header::HeaderValue;
use std::alloc::Global;
use web_messages::{Limits, Next, Progress, Wrong, read_last};
use web_reply::{HttpResponse, ResponseHead};
use web_texts::NoMemory;

/// The first of these replies that has the status.
fn first_reply(replies: &[HttpResponse<Bytes>], status: StatusCode) -> Option<&HttpResponse<Bytes>>
    ensures { option_map (λ r. r.now) result ≡ first_reply replies.now status }
{
    replies.iter().find(|reply| reply.status() == status)
}

/// The first of these replies, where there are any, that has the status.
fn own_reply(
    replies: &Option<Vec<HttpResponse<Bytes>>>,
    status: StatusCode,
) -> Option<&HttpResponse<Bytes>>
    ensures { option_map (λ r. r.now) result ≡ own_reply replies.now status }
{
    match replies {
        Some(replies) => first_reply(replies.as_slice(), status),
        None => None,
    }
}

/// Writes a reply of this head and this body that closes: all of it, or nothing where an allocation
/// failed.
fn write_closing(
    alloc: Global,
    room: &mut Vec<u8>,
    date: &Option<HeaderValue>,
    head: &ResponseHead,
    body: &[u8],
    out: &mut Vec<u8>,
) -> Result<(), NoMemory>
    ensures ok { OnOk result
        (out.new.items ≡ out.old.items ++ closing_text date.now head.now body.now) }
    ensures err { OnErr result (out.new.items ≡ out.old.items) }
{
    room.clear();
    let framing = BodyFraming::Length(body.len() as u64);
    put_begun_head(alloc, room, date, head, Some(framing), true)?;
    put_both(out, room.as_slice(), body)
}

/// Writes the reply of a refusal: all of it, or nothing where an allocation failed.
fn write_refusal(
    alloc: Global,
    room: &mut Vec<u8>,
    settings: &ReplySettings,
    status: StatusCode,
    out: &mut Vec<u8>,
) -> Result<(), NoMemory>
    ensures ok { OnOk result
        (out.new.items ≡ out.old.items ++ refusal_text settings.now status) }
    ensures err { OnErr result (out.new.items ≡ out.old.items) }
{
    match own_reply(&settings.refusals, status) {
        Some(reply) => {
            let body = reply.body().as_slice();
            write_closing(alloc, room, &settings.date, reply.head(), body, out)
        }
        None => {
            let empty = HttpResponse::with_body(alloc, status, ());
            write_closing(alloc, room, &settings.date, empty.head(), &[], out)
        }
    }
}

/// Writes the reply of a refusal. Returns how the connection ended.
pub(crate) fn refuse_as(
    alloc: Global,
    rooms: &mut Rooms,
    settings: &ReplySettings,
    wrong: Wrong,
    out: &mut Vec<u8>,
) -> Ended
    ensures { RefusesAs settings.now wrong result out.old.items out.new.items }
{
    match write_refusal(
        alloc,
        &mut rooms.reply,
        settings,
        refusal_status(wrong),
        out,
    ) {
        Ok(()) => Ended::Refused(wrong),
        Err(NoMemory) => Ended::NoMemory,
    }
}

/// Writes what is due for the bytes that are left, where no byte follows and no message is next.
pub(crate) fn finish_rest_as(
    alloc: Global,
    limits: &Limits,
    rest: &[u8],
    progress: Progress,
    rooms: &mut Rooms,
    settings: &ReplySettings,
    out: &mut Vec<u8>,
) -> Ended
    requires progress { IsProgress limits.now rest.now progress }
    requires waits { AllOpen limits.now rest.now }
    ensures { FinishesAs settings.now limits.now rest.now result out.old.items out.new.items }
{
    match read_last(alloc, limits, rest, progress, &mut rooms.head) {
        Ok(next) => match next {
            Next::Closed => Ended::Closed,
            Next::Refused(wrong) => refuse_as(alloc, rooms, settings, wrong, out),
            Next::Message(_) => unreachable!(),
        },
        Err(_) => Ended::NoMemory,
    }
}
