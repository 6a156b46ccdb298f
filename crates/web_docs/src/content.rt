//! The bytes that a reply sends of content in memory.
ghost use Rattle.std.specs.Prelude.{◌≡◌, ◌≤◌, ◌<◌, ◌+◌, IfOk, drop, length, take};
ghost use Rattle.web_docs.specs.DescribedReplies.{IsWithin};
ghost use Rattle.web_docs.specs.DocumentReplies.{filled as filled_lem};
ghost use Rattle.web_docs.specs.DocumentReplies.{sent_bytes as sent_bytes_lem};

use crate::sends::Sends;
use bytes::Bytes;
use web_reply::{HttpResponse, WholeBody};
use web_texts::NoMemory;

/// The bytes from one position to another, both included. They are shared.
fn bytes_between(body: &Bytes, first: u64, last: u64) -> Result<Bytes, NoMemory>
    requires order { first ≤ last }
    requires within { last < length body.now }
    ensures { IfOk result (λ part. part ≡ drop first (take (last + 1) body.now)) }
{
    let mut part = body.clone()?;
    part.truncate(last as usize + 1);
    part.advance(first as usize);
    Ok(part)
}

/// The bytes that are sent. They are shared.
fn sent_bytes(content: &Bytes, sends: Sends) -> Result<WholeBody, NoMemory>
    requires { IsWithin (length content.now) sends }
    ensures { IfOk result (λ body. body ≡ sent_bytes_lem content.now sends) }
{
    match sends {
        Sends::Nothing => Ok(WholeBody::Empty),
        Sends::All => Ok(WholeBody::Bytes(content.clone()?)),
        Sends::Part(first, last) => {
            let part = bytes_between(content, first, last)?;
            Ok(WholeBody::Bytes(part))
        }
    }
}

/// The reply with the bytes that it sends of this content.
pub fn filled(
    content: &Bytes,
    reply: HttpResponse<Sends>,
) -> Result<HttpResponse<WholeBody>, NoMemory>
    requires { IsWithin (length content.now) reply.body }
    ensures { IfOk result (λ whole. whole ≡ filled_lem content.now reply) }
{
    let body = sent_bytes(content, *reply.body())?;
    Ok(reply.set_body(body))
}
