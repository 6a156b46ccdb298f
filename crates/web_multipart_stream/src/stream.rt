//! The parts of a body, one by one.
ghost use Rattle.std.specs.Prelude.{◌≡◌, ◌+◌, ◌<◌, ◌≤◌, ◌^◌, None, Some, IfOk, IfSome, OnErr, OnOk};
ghost use Rattle.std.specs.Prelude.{length};
ghost use Rattle.std.specs.Option.{option_map};
ghost use Rattle.web_texts.specs.Counts.{Rose};
ghost use Rattle.web_request.specs.MessageFields.{mime_type_of};
ghost use Rattle.web_body.specs.Payload.{KeepsPayload, payload_feed};
ghost use Rattle.web_body.specs.PollSteps.{NeverNoMemory, OnPending, UnlessNoMemory};
ghost use Rattle.web_multipart_parts.specs.Settled.{IsSettled};
ghost use Rattle.web_body.specs.Collector.{StallsNext};
ghost use Rattle.web_body.specs.declared.poll.Step.TheVariants.{Ready};
ghost use Rattle.web_lines.specs.LastPieces.{LastTaken};
ghost use Rattle.web_multipart_parts.specs.PartReading.{parts_left, wait_size};
ghost use Rattle.web_multipart_stream.specs.FormBoundaries.{boundary_of, readable};
ghost use Rattle.web_multipart_stream.specs.PartStreams.{IsReading, KeepsStall, OnFault, PollGives};
ghost use Rattle.web_multipart_stream.specs.PartStreams.{ReadsPart};
ghost use Rattle.web_multipart_stream.specs.PartStreams.{parts_given, progress_after, schedule_of};
ghost use Rattle.web_multipart_stream.specs.PartTurns.{NextPart, NoPieceNext};
ghost use Rattle.web_multipart_stream.specs.StreamViews.{IsHeadRefusal, body_schedule, fresh};
ghost use Rattle.web_multipart_stream.specs.StreamViews.{left_by, new_stream, stream_by};
ghost use Rattle.web_multipart_stream.specs.declared.stream.StreamState.TheVariants.{Over, Reading};

use crate::boundary::boundary_in;
use crate::error::MultipartError;
use std::alloc::Global;
use std::marker::Model;
use web_body::{Payload, PayloadError, Step, is_coded};
use web_multipart_parts::{Part, PartReader, PartStep};
use web_request::{App, HttpMessage, HttpRequest, Source, Turn};
use web_texts::{Fail, Mime, NoMemory};

/// How far the parts were read.
#[derive(Clone, Copy, Drop)]
pub enum StreamState {
    /// Not polled yet, and refused by the head of the request.
    Refused(MultipartError),
    /// Read so far.
    Reading,
    /// The end or an error was returned, or allocation failed: nothing follows.
    Over,
}

/// What reading on to the next part came to.
#[derive(Drop)]
pub enum PartTurn {
    Pending,
    Part(Part),
    Closed,
    Failed(MultipartError),
    NoMemory,
}

/// The parts of a body of `multipart/form-data` (RFC 7578), one by one and each under a limit.
///
/// What it returns is the same for every cutting of the body into pieces, and comes as soon as the
/// bytes that show it came: a part with the boundary after it, an error with the byte that is
/// wrong. The parts before an error are returned before it. Nothing follows the end or the first
/// error. Contracts see the payload that is left, the bytes that came and were not read yet, how
/// they are read, and the size of the last piece.
#[derive(Drop)]
pub struct MultipartStream<S> {
    payload: Payload<S>,
    reader: PartReader,
    /// How many bytes the last piece had.
    last: usize,
    progress: StreamState,
}

impl<S> Model for MultipartStream<S> {
    ghost use Rattle.std.specs.Prelude.{◌+◌, ◌<◌, length};
    ghost use Rattle.web_multipart_parts.specs.PartReading.{wait_size};
    ghost use Rattle.web_multipart_stream.specs.StreamViews.{IsHeadRefusal, StreamView};

    ghost Value = { StreamView S };

    ghost view = { λ s. record {
      payload = s.payload;
      reader = s.reader;
      last = s.last;
      progress = s.progress;
    } };

    ghost invariant = { λ s. (length s.reader.came < wait_size s.reader.form + s.last)
        × IsHeadRefusal s.progress };
}

/// Reads until there is a part, an error, a stall or the end.
fn next_part<S: Source>(
    alloc: Global,
    payload: &mut Payload<S>,
    reader: &mut PartReader,
    last: &mut usize,
) -> PartTurn
    requires small { length reader.old.came < wait_size reader.old.form + last.old }
    ensures { NextPart S.feed payload.old reader.old last.old
        result payload.new reader.new last.new }
{
    'turns: loop {
        match reader.next(alloc) {
            PartStep::More => {}
            PartStep::Part(part) => return PartTurn::Part(part),
            PartStep::Closed => return PartTurn::Closed,
            PartStep::Failed(error) => return PartTurn::Failed(MultipartError::from(error)),
            PartStep::NoMemory => return PartTurn::NoMemory,
        }
        match payload.poll_next() {
            Turn::Piece(piece) => {
                *last = piece.len();
                match reader.feed(piece.as_slice()) {
                    Ok(()) => {}
                    Err(_) => return PartTurn::NoMemory,
                }
            }
            Turn::Stall => return PartTurn::Pending,
            Turn::Fault => {
                return PartTurn::Failed(MultipartError::Payload(PayloadError::Io));
            }
            Turn::End => return PartTurn::Failed(MultipartError::Grammar),
            Turn::NoMemory => return PartTurn::NoMemory,
        }
    }
}

/// The media type of a request, where it can be read.
fn media_type<A: App>(alloc: Global, req: &HttpRequest<A>) -> Result<Option<Mime>, NoMemory>
    ensures { IfOk result (λ found. found ≡ readable (mime_type_of req.now.request.head.headers)) }
{
    match req.mime_type(alloc) {
        Ok(found) => Ok(found),
        Err(Fail::Of(_)) => Ok(None),
        Err(Fail::NoMemory) => Err(NoMemory),
    }
}

impl<S: Source> MultipartStream<S> {
    /// Takes the payload of a request, to read its parts, of at most `part_limit` bytes each.
    ///
    /// Where the first Content-Type is not `multipart/form-data` or has no boundary, the payload is
    /// left, and the first poll returns `ContentType`. Else, where the body has a content coding
    /// other than `identity`, the first poll returns `Payload(UnsupportedEncoding)`.
    /// Content-Length is not looked at. Returns `NoMemory` where allocation failed; the payload is
    /// then as before.
    pub fn new<A: App<Source = S>>(
        alloc: Global,
        req: &HttpRequest<A>,
        payload: &mut Payload<S>,
        part_limit: usize,
    ) -> Result<MultipartStream<S>, NoMemory>
        requires { part_limit ≤ 2 ^ 62 }
        ensures value { IfOk result (λ stream. stream
            ≡ new_stream req.now.request.head.headers part_limit payload.old) }
        ensures taken { OnOk result (payload.new
            ≡ left_by (boundary_of req.now.request.head.headers) payload.old) }
        ensures means { IfOk result (λ stream. IfSome (payload_feed S.feed payload.old).marks
            (λ m. schedule_of S.feed stream
            ≡ Some (body_schedule req.now.request.head.headers part_limit m))) }
        ensures err { OnErr result (payload.new ≡ payload.old) }
    {
        MultipartStream::of_request(alloc, req, payload, part_limit)
    }

    /// The same, by what the head says.
    fn of_request<A: App<Source = S>>(
        alloc: Global,
        req: &HttpRequest<A>,
        payload: &mut Payload<S>,
        limit: usize,
    ) -> Result<MultipartStream<S>, NoMemory>
        requires { limit ≤ 2 ^ 62 }
        ensures value { IfOk result (λ stream. stream
            ≡ new_stream req.now.request.head.headers limit payload.old) }
        ensures taken { OnOk result (payload.new
            ≡ left_by (boundary_of req.now.request.head.headers) payload.old) }
        ensures err { OnErr result (payload.new ≡ payload.old) }
    {
        let media_type = media_type(alloc, req)?;
        let boundary = match &media_type {
            Some(media_type) => boundary_in(media_type),
            None => None,
        };
        MultipartStream::by_head(
            alloc,
            boundary,
            is_coded(&req.head().headers),
            payload,
            limit,
        )
    }

    /// The stream of a body of this boundary, if any, and with a coding or none.
    fn by_head(
        alloc: Global,
        boundary: Option<&str>,
        is_coded: bool,
        payload: &mut Payload<S>,
        limit: usize,
    ) -> Result<MultipartStream<S>, NoMemory>
        requires { limit ≤ 2 ^ 62 }
        ensures value { IfOk result (λ stream. stream
            ≡ stream_by (option_map (λ b. b.now) boundary.entry) is_coded limit payload.old) }
        ensures taken { OnOk result (payload.new
            ≡ left_by (option_map (λ b. b.now) boundary.entry) payload.old) }
        ensures err { OnErr result (payload.new ≡ payload.old) }
    {
        let Some(boundary) = boundary else {
            let refused = StreamState::Refused(MultipartError::ContentType);
            return MultipartStream::fresh(alloc, &mut Payload::None, "", limit, refused);
        };
        if is_coded {
            let error = MultipartError::Payload(PayloadError::UnsupportedEncoding);
            return MultipartStream::fresh(alloc, payload, "", limit, StreamState::Refused(error));
        }
        MultipartStream::fresh(alloc, payload, boundary, limit, StreamState::Reading)
    }

    /// A stream that was not polled yet. It takes the payload.
    fn fresh(
        alloc: Global,
        payload: &mut Payload<S>,
        boundary: &str,
        limit: usize,
        progress: StreamState,
    ) -> Result<MultipartStream<S>, NoMemory>
        requires limit { limit ≤ 2 ^ 62 }
        requires refusal { IsHeadRefusal progress }
        ensures value { IfOk result (λ stream. stream
            ≡ fresh payload.old boundary.now limit progress) }
        ensures taken { OnOk result (payload.new ≡ Payload.None) }
        ensures err { OnErr result (payload.new ≡ payload.old) }
    {
        let reader = PartReader::new(alloc, boundary.as_bytes(), limit)?;
        Ok(MultipartStream {
            payload: payload.take(),
            reader,
            last: 0,
            progress,
        })
    }

    /// The number of bytes that came and were not read yet: at most the limit of a part, 4,096, the
    /// length of the boundary, 8 and the length of the last piece.
    pub fn buffered(&self) -> usize
        ensures value { result ≡ length self.now.reader.came }
        ensures within { result < wait_size self.now.reader.form + self.now.last }
    {
        self.reader.buffered()
    }

    /// The next part; `None` after the close-delimiter, after an error, and where a poll before
    /// lacked memory. An error ends the parts; `MultipartError` says when each comes. Returns
    /// `Pending` where the payload stalls before the part is known, and `NoMemory` where allocation
    /// failed. There are at most 64 parts.
    pub fn poll_next(&mut self, alloc: Global) -> Step<Option<Result<Part, MultipartError>>>
        ensures gives { PollGives
            (schedule_of S.feed self.old) result (schedule_of S.feed self.new) }
        ensures progress { self.new.progress ≡ progress_after self.old.progress result }
        ensures form { self.new.reader.form ≡ self.old.reader.form }
        ensures payload { IsReading self.old.progress
            → KeepsPayload S.feed self.old.payload self.new.payload }
        ensures pending { OnPending result (Rose
            (payload_feed S.feed self.old.payload).stalls
            (payload_feed S.feed self.new.payload).stalls) }
        ensures fault { OnFault result (Rose
            (payload_feed S.feed self.old.payload).faults
            (payload_feed S.feed self.new.payload).faults) }
        ensures lacked { IsReading self.old.progress
            → UnlessNoMemory result ((payload_feed S.feed self.new.payload).lacked
            ≡ (payload_feed S.feed self.old.payload).lacked) }
        ensures stalled { IsReading self.old.progress
            → StallsNext (payload_feed S.feed self.old.payload).marks → KeepsStall result
            (payload_feed S.feed self.old.payload).marks
            (payload_feed S.feed self.new.payload).marks }
        ensures settled { OnPending result (IsSettled self.new.reader) }
        ensures memory { IsReading self.old.progress → IsSettled self.old.reader
            → NoPieceNext (payload_feed S.feed self.old.payload).marks → NeverNoMemory result }
        ensures fewer { parts_given result + parts_left self.new.reader
            ≤ parts_left self.old.reader }
        ensures within { length self.new.reader.came
            < wait_size self.new.reader.form + self.new.last }
        ensures last { LastTaken
            (payload_feed S.feed self.old.payload).marks self.old.last
            (payload_feed S.feed self.new.payload).marks self.new.last }
        ensures over { self.old.progress ≡ Over
            → (result ≡ Ready None) × (self.new ≡ self.old) }
    {
        match self.progress {
            StreamState::Refused(error) => {
                self.progress = StreamState::Over;
                Step::Ready(Some(Err(error)))
            }
            StreamState::Reading => self.read_on(alloc),
            StreamState::Over => Step::Ready(None),
        }
    }

    /// Reads on to the next part.
    fn read_on(&mut self, alloc: Global) -> Step<Option<Result<Part, MultipartError>>>
        requires reading { self.old.progress ≡ Reading }
        ensures { ReadsPart S.feed self.old result self.new }
    {
        match next_part(alloc, &mut self.payload, &mut self.reader, &mut self.last) {
            PartTurn::Pending => Step::Pending,
            PartTurn::Part(part) => Step::Ready(Some(Ok(part))),
            PartTurn::Closed => {
                self.progress = StreamState::Over;
                Step::Ready(None)
            }
            PartTurn::Failed(error) => {
                self.progress = StreamState::Over;
                Step::Ready(Some(Err(error)))
            }
            PartTurn::NoMemory => {
                self.progress = StreamState::Over;
                Step::NoMemory
            }
        }
    }
}
