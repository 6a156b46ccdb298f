//! A body that is written after the head of its reply, piece by piece.
ghost use Rattle.std.specs.Prelude.{◌≡◌, ◌++◌, IfSome, List, None, OnErr, OnOk, ℕ};
ghost use Rattle.web_body.specs.Payload.{payload_feed};
ghost use Rattle.web_http1.specs.BodyFramings.{Fits, NoneIsDue, after_bytes, chunk_text};
ghost use Rattle.web_http1.specs.BodyFramings.{end_text, piece_text};
ghost use Rattle.web_http1.specs.DueBodies.{FollowsNext, FollowsSource, HasFewer, IsToCome};
ghost use Rattle.web_http1.specs.DueBodies.{WritesEnd, WritesNext, WritesOn};
ghost use Rattle.web_http1.specs.DueBodies.{WritesOne, WritesPiece, after_body, body_feed};

use crate::connection::Connection;
use crate::text::put_both;
use std::alloc::Global;
use web_body::Payload;
use web_messages::chunk_line;
use web_request::{Source, Turn};
use web_texts::NoMemory;

/// How the receiver of a reply knows the end of its body (RFC 7230, section 3.3.3).
#[derive(Clone, Copy, Debug, PartialEq, Eq)]
pub enum BodyFraming {
    /// By its length: so many bytes are still to be written.
    Length(u64),
    /// By the last of its chunks.
    Chunked,
    /// By the end of the connection, where the receiver speaks HTTP/1.0.
    UntilClose,
}

/// How much of a body was written.
#[derive(Clone, Copy, Debug, PartialEq, Eq)]
pub enum BodyStage {
    /// Some of it may be left.
    Due(BodyFraming),
    /// All of it.
    Sent,
    /// It was given up.
    Broken,
}

/// What a call of `DueBody::write_next` came to.
#[derive(Clone, Copy, Debug, PartialEq, Eq)]
pub enum BodyWritten {
    /// A piece was written: more may follow.
    Piece,
    /// The source has no piece yet: nothing was written.
    Pending,
    /// All of the body was written.
    Done,
    /// The source failed, or gave another number of bytes than was stated. Nothing more is written:
    /// the connection has to be closed, so that the receiver sees that the body is cut.
    Broken,
    /// An allocation failed. Nothing more is written.
    NoMemory,
}

/// A payload that is due after the head of its reply.
#[derive(Drop)]
pub(crate) struct DuePayload<S> {
    pub(crate) framing: BodyFraming,
    pub(crate) payload: Box<Payload<S>>,
}

/// The body of a reply whose head was written, with the connection that it is written to: no other
/// message is answered before.
#[derive(Drop)]
pub struct DueBody<S> {
    payload: Box<Payload<S>>,
    stage: BodyStage,
    /// As it is after the body.
    connection: Connection,
}

/// What was written of a body, and how much of it is left.
#[derive(Clone, Copy)]
struct BodyStep {
    written: BodyWritten,
    stage: BodyStage,
}

impl BodyStep {
    /// The body is given up.
    fn broken(written: BodyWritten) -> BodyStep
        ensures { result ≡ record { written = written; stage = BodyStage.Broken } }
    {
        BodyStep {
            written,
            stage: BodyStage::Broken,
        }
    }
}

/// Writes a chunk of these bytes (RFC 7230, section 4.1): all of it, or nothing where an
/// allocation failed.
fn put_chunk(alloc: Global, out: &mut Vec<u8>, piece: &[u8]) -> Result<(), NoMemory>
    ensures ok { OnOk result (out.new.items ≡ out.old.items ++ chunk_text piece.now) }
    ensures err { OnErr result (out.new.items ≡ out.old.items) }
{
    let line = chunk_line(alloc, piece.len())?;
    let before = out.len();
    put_both(out, line.as_bytes(), piece)?;
    if out.extend_from_slice(b"\r\n").is_err() {
        out.truncate(before);
        return Err(NoMemory);
    }
    Ok(())
}

/// Writes a piece as its framing has it: all of it, or nothing where an allocation failed.
fn put_piece(
    alloc: Global,
    framing: BodyFraming,
    piece: &[u8],
    out: &mut Vec<u8>,
) -> Result<(), NoMemory>
    ensures ok { OnOk result (out.new.items ≡ out.old.items ++ piece_text framing piece.now) }
    ensures err { OnErr result (out.new.items ≡ out.old.items) }
{
    match framing {
        BodyFraming::Chunked => put_chunk(alloc, out, piece),
        BodyFraming::Length(_) | BodyFraming::UntilClose => Ok(out.extend_from_slice(piece)?),
    }
}

/// The framing of what is left after a piece of this size; `None` where it is larger than what is
/// due.
fn framing_after(framing: BodyFraming, size: u64) -> Option<BodyFraming>
    ensures left { IfSome result (λ left. Fits framing size × (left ≡ after_bytes framing size)) }
    ensures none { result ≡ None → ¬ (Fits framing size) }
{
    match framing {
        BodyFraming::Length(due) => {
            if due < size {
                return None;
            }
            Some(BodyFraming::Length(due - size))
        }
        BodyFraming::Chunked | BodyFraming::UntilClose => Some(framing),
    }
}

/// Writes the next piece.
fn write_piece(alloc: Global, framing: BodyFraming, piece: &[u8], out: &mut Vec<u8>) -> BodyStep
    ensures { WritesPiece framing piece.now out.old.items out.new.items result.written
        result.stage }
{
    let Some(left) = framing_after(framing, piece.len() as u64) else {
        return BodyStep::broken(BodyWritten::Broken);
    };
    match put_piece(alloc, framing, piece, out) {
        Ok(()) => BodyStep {
            written: BodyWritten::Piece,
            stage: BodyStage::Due(left),
        },
        Err(NoMemory) => BodyStep::broken(BodyWritten::NoMemory),
    }
}

/// The text after the last piece; `None` where bytes are still due.
fn end_of(framing: BodyFraming) -> Option<&'static [u8]>
    ensures text { IfSome result (λ text. NoneIsDue framing × (text.now ≡ end_text framing)) }
    ensures none { result ≡ None → ¬ (NoneIsDue framing) }
{
    match framing {
        BodyFraming::Chunked => Some(b"0\r\n\r\n"),
        BodyFraming::Length(0) | BodyFraming::UntilClose => Some(b""),
        BodyFraming::Length(_) => None,
    }
}

/// Writes what ends a body.
fn write_end(framing: BodyFraming, out: &mut Vec<u8>) -> BodyStep
    ensures { WritesEnd framing out.old.items out.new.items result.written result.stage }
{
    let Some(end) = end_of(framing) else {
        return BodyStep::broken(BodyWritten::Broken);
    };
    match out.extend_from_slice(end) {
        Ok(()) => BodyStep {
            written: BodyWritten::Done,
            stage: BodyStage::Sent,
        },
        Err(_) => BodyStep::broken(BodyWritten::NoMemory),
    }
}

/// Writes what the payload gives next.
fn write_turn<S: Source>(
    alloc: Global,
    payload: &mut Payload<S>,
    framing: BodyFraming,
    out: &mut Vec<u8>,
) -> BodyStep
    ensures one { WritesOne framing out.old.items out.new.items result.written result.stage }
    ensures on { (text : List ℕ)
        → IsToCome (payload_feed S.feed payload.old) (BodyStage.Due framing) text
        → WritesOn text (payload_feed S.feed payload.new) result.stage out.old.items
        out.new.items result.written }
    ensures fewer { HasFewer result.written (payload_feed S.feed payload.old)
        (payload_feed S.feed payload.new) }
    ensures source { FollowsSource result.written (payload_feed S.feed payload.old)
        (payload_feed S.feed payload.new) }
{
    match payload.poll_next() {
        Turn::Piece(piece) => write_piece(alloc, framing, piece.as_slice(), out),
        Turn::Stall => BodyStep {
            written: BodyWritten::Pending,
            stage: BodyStage::Due(framing),
        },
        Turn::Fault => BodyStep::broken(BodyWritten::Broken),
        Turn::End => write_end(framing, out),
        Turn::NoMemory => BodyStep::broken(BodyWritten::NoMemory),
    }
}

impl<S> DueBody<S> {
    pub(crate) fn new(connection: Connection, due: DuePayload<S>) -> DueBody<S>
        ensures { result ≡ record {
          payload = due.payload;
          stage = BodyStage.Due due.framing;
          connection = connection;
        } }
    {
        DueBody {
            payload: due.payload,
            stage: BodyStage::Due(due.framing),
            connection,
        }
    }

    /// How much of it was written.
    pub fn stage(&self) -> BodyStage
        ensures { result ≡ self.now.stage }
    {
        self.stage
    }
}

impl<S: Drop> DueBody<S> {
    /// The connection after the body. Where not all of the body was written it has ended, with
    /// `Ended::SourceFault`.
    pub fn into_connection(self) -> Connection
        ensures { result ≡ after_body self.stage self.connection }
    {
        let DueBody {
            payload: _,
            stage,
            connection,
        } = self;
        match stage {
            BodyStage::Sent => connection,
            BodyStage::Due(_) | BodyStage::Broken => connection.cut(),
        }
    }
}

impl<S: Source> DueBody<S> {
    /// Writes the next piece of the body, as a chunk where it has no length. A loop that sends it
    /// and then calls again, until `Done`, `Broken` or `NoMemory`, has one piece in memory at a
    /// time.
    pub fn write_next(&mut self, alloc: Global, out: &mut Vec<u8>) -> BodyWritten
        ensures connection { self.new.connection ≡ self.old.connection }
        ensures written { WritesNext self.old.stage out.old.items out.new.items result
            self.new.stage }
        ensures on { (text : List ℕ) → IsToCome (body_feed S.feed self.old) self.old.stage text
            → WritesOn text (body_feed S.feed self.new) self.new.stage out.old.items
            out.new.items result }
        ensures fewer { HasFewer result (body_feed S.feed self.old) (body_feed S.feed self.new) }
        ensures source { FollowsNext self.old.stage result (body_feed S.feed self.old)
            (body_feed S.feed self.new) }
    {
        match self.stage {
            BodyStage::Due(framing) => {
                let step = write_turn(alloc, &mut *self.payload, framing, out);
                self.stage = step.stage;
                step.written
            }
            BodyStage::Sent => BodyWritten::Done,
            BodyStage::Broken => BodyWritten::Broken,
        }
    }
}
