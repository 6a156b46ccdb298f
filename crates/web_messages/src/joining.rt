//! Chunks that were read, written anew as one.
ghost use Rattle.std.specs.Prelude.{◌≡◌, ◌+◌, ◌++◌, ◌/◌, ◌<◌, ◌≤◌, IfOk, OnErr, drop, false};
ghost use Rattle.std.specs.Prelude.{length, string_bytes, take, true};
ghost use Rattle.std.specs.Fmt.{digits};
ghost use Rattle.httparse.specs.Ascii.{crlf_bytes};
ghost use Rattle.web_messages.specs.Joining.{Joins, one_chunk};
ghost use Rattle.web_messages.specs.Progress.{IsProgress, IsShort};

use crate::chunked::{ChunksRead, SizeLineRead};
use crate::limits::Limits;
use crate::progress::Progress;
use std::alloc::Global;
use web_texts::NoMemory;

/// So many bytes of lines are left beside a sixteenth of the content.
const FEW: usize = 4096;

/// The line before the bytes of a chunk of this size (RFC 7230, section 4.1). `NoMemory` where an
/// allocation failed.
pub fn chunk_line(alloc: Global, size: usize) -> Result<String, NoMemory>
    ensures { IfOk result (λ line. string_bytes line ≡ digits 16 false size ++ crlf_bytes) }
{
    Ok(format!(in alloc; "{:x}\r\n", size)?)
}

/// Whether chunks of so many bytes in all are to be written anew, which have so much content.
fn has_many_lines(at: usize, content: usize) -> bool
    ensures many { result ≡ true → (content < 4294967296) × (content + 4096 < at) }
    ensures few { result ≡ false → content < 4294967296
        → at ≤ content + (content / 16 + 4096) }
{
    if content > u32::MAX as usize {
        return false;
    }
    at > content + (content / 16 + FEW)
}

/// These texts, one after the other, and the line end after the content of a chunk before the rest.
fn joined(
    alloc: Global,
    head: &[u8],
    line: &[u8],
    content: &[u8],
    rest: &[u8],
) -> Result<Vec<u8>, NoMemory>
    ensures { IfOk result (λ bytes. bytes.items
        ≡ head.now ++ (line.now ++ (content.now ++ (crlf_bytes ++ rest.now)))) }
{
    let mut bytes = Vec::from_slice(alloc, head)?;
    bytes.extend_from_slice(line)?;
    bytes.extend_from_slice(content)?;
    bytes.extend_from_slice(b"\r\n")?;
    bytes.extend_from_slice(rest)?;
    Ok(bytes)
}

impl Progress {
    /// The bytes of which this was read, with the chunks that were read as one chunk, where these
    /// have many bytes besides their content. Whatever follows, they read the same; a message in
    /// them has the fewer bytes. Where an allocation fails, nothing has changed.
    pub fn join_chunks(
        &mut self,
        alloc: Global,
        limits: &Limits,
        bytes: &[u8],
    ) -> Result<Option<Vec<u8>>, NoMemory>
        requires progress { IsProgress limits.now bytes.now self.old }
        requires short { IsShort limits.now bytes.now self.old }
        ensures joins { IfOk result (Joins limits.now bytes.now self.old self.new) }
        ensures err { OnErr result (self.new ≡ self.old) }
    {
        let Progress::Chunked(head, place, body) = self else {
            return Ok(None);
        };
        if !has_many_lines(place.at, body.len()) {
            return Ok(None);
        }
        let (front, text) = bytes.split_at(head.length);
        let (_, rest) = text.split_at(place.at);
        let line = chunk_line(alloc, body.len())?;
        let joined = joined(alloc, front, line.as_bytes(), body.as_slice(), rest)?;
        *place = ChunksRead {
            at: line.len() + (body.len() + 2),
            left: place.left,
            line: SizeLineRead::Open(0),
            trailers: None,
        };
        Ok(Some(joined))
    }
}
