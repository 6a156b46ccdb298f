//! Replies whose bodies are read as they are sent.
ghost use Rattle.std.specs.Prelude.{◌<◌, ◌≤◌, ◌⊎◌, ◌^◌, IfOk, MatchOption};
ghost use Rattle.web_files.specs.SentBodies.{IsMoved, IsSized, SendsIfRead, SendsPart, Streams};

use crate::file_pieces::FilePieces;
use http::StatusCode;
use std::alloc::Global;
use std::io::{Read, Seek, SeekFrom};
use web_body::Payload;
use web_folders::{FilePart, FolderBody};
use web_reply::{BoxBody, HttpResponse};
use web_texts::NoMemory;

/// More bytes than any file has.
const TOO_MANY: u64 = 1 << 63;

fn sized<F: Read + Drop>(
    alloc: Global,
    count: u64,
    payload: Payload<FilePieces<F>>,
) -> Result<BoxBody<FilePieces<F>>, NoMemory>
    ensures { IfOk result (λ body. IsSized count payload body) }
{
    Ok(BoxBody::Sized(count, Box::new(alloc, payload)?))
}

/// The file at this position, from which it is read next. `None` if it cannot be moved there. From
/// the first byte on it is read as it was opened.
fn moved<F: Read + Seek + Drop>(file: F, first: u64) -> Option<F>
    ensures { MatchOption result (0 < first) (λ moved. IsMoved (record {
      left = F.remaining;
      position = F.stream_position;
      bytes = F.stream_bytes;
    })
        file first moved) }
{
    let mut file = file;
    if first == 0 {
        return Some(file);
    }
    match file.seek(SeekFrom::Start(first)) {
        Ok(_) => Some(file),
        Err(_) => None,
    }
}

/// The bytes of a part of a file. `None` if the file cannot be moved to its first position, or if
/// it has more bytes than any file.
fn part_body<F: Read + Seek + Drop>(
    alloc: Global,
    part: FilePart<F>,
) -> Result<Option<BoxBody<FilePieces<F>>>, NoMemory>
    ensures { IfOk result (λ found. MatchOption found
        ((0 < part.first) ⊎ (2 ^ 63 ≤ part.count))
        (λ body. SendsPart (record {
          left = F.remaining;
          position = F.stream_position;
          bytes = F.stream_bytes;
        })
        part body)) }
{
    let FilePart { file, first, count } = part;
    if count >= TOO_MANY {
        return Ok(None);
    }
    let Some(file) = moved(file, first) else {
        return Ok(None);
    };
    let pieces = FilePieces::new(alloc, file, count);
    Ok(Some(sized(alloc, count, Payload::Stream(pieces))?))
}

/// The body of a reply from a folder, to be sent. `None` if the file cannot be read.
fn sent_body<F: Read + Seek + Drop>(
    alloc: Global,
    body: FolderBody<F>,
) -> Result<Option<BoxBody<FilePieces<F>>>, NoMemory>
    ensures { IfOk result (λ sent. SendsIfRead (record {
      left = F.remaining;
      position = F.stream_position;
      bytes = F.stream_bytes;
    })
        body sent) }
{
    match body {
        FolderBody::Empty => Ok(Some(BoxBody::Empty)),
        FolderBody::Page(page) => Ok(Some(BoxBody::Bytes(page))),
        FolderBody::File(part) => part_body(alloc, part),
        FolderBody::Omitted(count) => Ok(Some(sized(alloc, count, Payload::None)?)),
    }
}

/// The reply with its file as a body that is read as it is sent. Its length is the one that was
/// stated, also if the file grows; if the file was cut, the body breaks off.
///
/// An empty 500 only for a part that begins after the first byte, if the file cannot be moved
/// there, and for one of 2^63 bytes or more. Returns `NoMemory` if an allocation failed.
pub fn streamed<F: Read + Seek + Drop>(
    alloc: Global,
    reply: HttpResponse<FolderBody<F>>,
) -> Result<HttpResponse<BoxBody<FilePieces<F>>>, NoMemory>
    ensures { IfOk result (λ sent. Streams (record {
      left = F.remaining;
      position = F.stream_position;
      bytes = F.stream_bytes;
    })
        reply sent) }
{
    let (reply, body) = reply.into_parts();
    match sent_body(alloc, body)? {
        Some(body) => Ok(reply.set_body(body)),
        None => {
            let status = StatusCode::INTERNAL_SERVER_ERROR;
            Ok(HttpResponse::with_body(alloc, status, BoxBody::Empty))
        }
    }
}
