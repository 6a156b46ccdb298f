//! The lines of a body, one by one.
ghost use Rattle.std.specs.Prelude.{◌≡◌, ◌+◌, ◌<◌, ◌≤◌, ◌++◌, [], None, IfOk, OnErr, OnOk, length};
ghost use Rattle.std.specs.Prelude.{Some, Err, IsOk};
ghost use Rattle.web_texts.specs.Counts.{Rose};
ghost use Rattle.web_request.specs.MessageFields.{encoding_of, first_content_type};
ghost use Rattle.web_body.specs.Collector.{StallsNext};
ghost use Rattle.web_body.specs.Payload.{KeepsPayload, bytes_between, payload_feed};
ghost use Rattle.web_body.specs.PollSteps.{IsPending, NeverNoMemory, OnPending, UnlessNoMemory};
ghost use Rattle.web_lines.specs.LineCuts.{IsSearched, IsUnfinished, TakesLine};
ghost use Rattle.web_lines.specs.LineReading.{Buffers, IsReading, IsUnpolled, OnEnd, OnFault};
ghost use Rattle.web_lines.specs.LastPieces.{LastTaken};
ghost use Rattle.web_lines.specs.LineMemory.{NeedsNoMemory};
ghost use Rattle.web_lines.specs.LineReading.{OnLine, OnRefused, OnTooLong, ReadsLine, StepGives};
ghost use Rattle.web_body.specs.MessageBody.{default_limit};
ghost use Rattle.web_lines.specs.LineReading.{new_reader, progress_after};
ghost use Rattle.web_lines.specs.LineReading.{schedule_of, taken_from, work_left};
ghost use Rattle.web_lines.specs.NextLines.{BuffersLine, LastLine, MayGoOn, NextLine};
ghost use Rattle.web_body.specs.declared.errors.lines_error.ReadlinesError.TheVariants as readlines;
ghost use Rattle.web_body.specs.declared.poll.Step.TheVariants.{Ready};
ghost use Rattle.web_lines.specs.declared.lines_collector.LinesState.TheVariants.{Over, Reading};

use crate::line_cut::{LineCut, hold_piece, next_cut, take_line};
use bytes::Bytes;
use std::alloc::Global;
use std::marker::Model;
use web_body::{Payload, PayloadError, ReadlinesError, Step, TakePayload};
use web_request::{HttpMessage, Source, Turn};
use web_texts::{ContentTypeError, Fail, NoMemory, Text};

/// The limit of a line where no other is chosen, in bytes with its newline.
pub const DEFAULT_LIMIT: usize = 262_144;

const _: () = prove!(DEFAULT_LIMIT == 262_144);

/// How far the lines were read.
#[derive(Clone, Copy, Drop)]
pub enum LinesState {
    /// Not polled yet, and refused for the content type of the message.
    Refused(ContentTypeError),
    /// Read so far.
    Reading,
    /// The end or an error was returned, or allocation failed: nothing follows.
    Over,
}

/// Reads the lines of a body one by one, each with its newline, as UTF-8 and under a limit.
///
/// A line is refused as soon as more bytes of it came than the limit allows, be it finished or not.
/// Nothing follows the end or the first error. Contracts see the bytes that came and are not
/// returned yet, the payload that is left, the size of the last piece, and the limit.
#[derive(Drop)]
pub struct Readlines<S> {
    payload: Payload<S>,
    /// The front of a line that came in earlier pieces.
    held: Vec<u8>,
    /// What is left of the last piece.
    piece: Bytes,
    /// How many bytes the last piece had.
    last: usize,
    /// Whether the piece was searched and has no newline.
    is_searched: bool,
    limit: usize,
    progress: LinesState,
}

impl<S> Model for Readlines<S> {
    ghost use Rattle.std.specs.Prelude.{◌≤◌, ◌++◌, length};
    ghost use Rattle.web_lines.specs.LineReader.{LineReader};
    ghost use Rattle.web_lines.specs.LineReading.{HoldsNothing};
    ghost use Rattle.web_lines.specs.LineCuts.{IsSearched, IsUnfinished};

    ghost Value = { LineReader S };

    ghost view = { λ r. record {
      payload = r.payload;
      came = r.held.items ++ r.piece;
      last = r.last;
      limit = r.limit;
      progress = r.progress;
    } };

    ghost invariant = { λ r.
        IsUnfinished r.limit r.held.items
        × IsSearched r.limit r.is_searched (r.held.items ++ r.piece)
        × (length r.piece ≤ r.last)
        × HoldsNothing r.progress (r.held.items ++ r.piece) };
}

/// What reading on to the next line came to.
#[derive(Drop)]
enum LineStep {
    Pending,
    Line(Text),
    Failed(ReadlinesError),
    End,
    NoMemory,
}

/// Reads until there is a line, an error, a stall or the end.
fn next_line<S: Source>(
    alloc: Global,
    payload: &mut Payload<S>,
    held: &mut Vec<u8>,
    piece: &mut Bytes,
    last: &mut usize,
    is_searched: &mut bool,
    limit: usize,
) -> LineStep
    requires unfinished { IsUnfinished limit held.old.items }
    requires fits { length piece.old ≤ last.old }
    requires searched { IsSearched limit is_searched.old (held.old.items ++ piece.old) }
    ensures next { NextLine S.feed limit payload.old held.old.items piece.old
        result payload.new held.new.items piece.new }
    ensures searched { MayGoOn result
        (IsSearched limit is_searched.new (held.new.items ++ piece.new)) }
    ensures fits { MayGoOn result (length piece.new ≤ last.new) }
    ensures buffers { BuffersLine result (length (held.old.items ++ piece.old))
        (bytes_between S.feed payload.old payload.new) (held.new.items ++ piece.new) }
    ensures last { LastTaken
        (payload_feed S.feed payload.old).marks last.old
        (payload_feed S.feed payload.new).marks last.new }
{
    'turns: loop {
        match next_cut(alloc, held, piece, is_searched, limit) {
            LineCut::Line(line) => return LineStep::Line(line),
            LineCut::TooLong => return LineStep::Failed(ReadlinesError::LimitOverflow),
            LineCut::NotText => return LineStep::Failed(ReadlinesError::EncodingError),
            LineCut::Unfinished => {}
            LineCut::NoMemory => return LineStep::NoMemory,
        }
        match payload.poll_next() {
            Turn::Piece(next) => {
                *last = next.len();
                match hold_piece(held, piece, next) {
                    Ok(()) => *is_searched = false,
                    Err(_) => return LineStep::NoMemory,
                }
            }
            Turn::Stall => return LineStep::Pending,
            Turn::Fault => {
                return LineStep::Failed(ReadlinesError::Payload(PayloadError::Io));
            }
            Turn::End => return last_line(alloc, held, piece),
            Turn::NoMemory => return LineStep::NoMemory,
        }
    }
}

/// Takes the rest of a body, which has no newline, as its last line.
fn last_line(alloc: Global, held: &mut Vec<u8>, piece: &mut Bytes) -> LineStep
    ensures { LastLine (held.old.items ++ piece.old) result held.new.items piece.new }
{
    if held.is_empty() && piece.is_empty() {
        return LineStep::End;
    }
    match take_rest(alloc, held, piece) {
        LineCut::Line(line) => LineStep::Line(line),
        LineCut::NotText => LineStep::Failed(ReadlinesError::EncodingError),
        LineCut::TooLong => unreachable!(),
        LineCut::Unfinished => unreachable!(),
        LineCut::NoMemory => LineStep::NoMemory,
    }
}

/// Takes what is held and the piece after it as a line.
fn take_rest(alloc: Global, held: &mut Vec<u8>, piece: &mut Bytes) -> LineCut
    ensures taken { TakesLine (held.old.items ++ piece.old) result held.new.items }
    ensures piece { piece.new ≡ [] }
{
    let line = take_line(alloc, held, piece.as_slice());
    piece.clear();
    line
}

impl<S: Source> Readlines<S> {
    /// Takes the payload of a message, to read its lines under the default limit. Where the content
    /// type of the message is no media type, or its charset is not UTF-8, the payload is left, and
    /// the first poll returns `ContentTypeError`. Returns `NoMemory` where allocation failed, which
    /// it does not without a Content-Type; the message is then as before.
    pub fn new<M: HttpMessage + TakePayload<Source = S>>(
        alloc: Global,
        req: &mut M,
    ) -> Result<Readlines<S>, NoMemory>
        ensures value { IfOk result (λ lines. lines
            ≡ new_reader (encoding_of (M.fields req.old)) (M.payload req.old)) }
        ensures taken { OnOk result (req.new
            ≡ taken_from (encoding_of (M.fields req.old)) (M.without_payload req.old) req.old) }
        ensures unpolled { IfOk result (λ lines. IsUnpolled lines) }
        ensures err { OnErr result (req.new ≡ req.old) }
        ensures memory { first_content_type (M.fields req.old) ≡ None → IsOk result }
    {
        match req.encoding(alloc) {
            Ok(()) => {
                let payload = req.take_payload();
                Ok(Readlines::with_progress(alloc, payload, LinesState::Reading))
            }
            Err(Fail::NoMemory) => Err(NoMemory),
            Err(Fail::Of(error)) => {
                let progress = LinesState::Refused(error);
                Ok(Readlines::with_progress(alloc, Payload::None, progress))
            }
        }
    }

    fn with_progress(alloc: Global, payload: Payload<S>, progress: LinesState) -> Readlines<S>
        ensures { result ≡ record {
          payload = payload;
          came = [];
          last = 0;
          limit = default_limit;
          progress = progress;
        } }
    {
        Readlines {
            payload,
            held: Vec::new(alloc),
            piece: Bytes::new(),
            last: 0,
            is_searched: false,
            limit: DEFAULT_LIMIT,
            progress,
        }
    }

    /// Sets the limit of a line, in bytes with its newline. It must not have been polled yet.
    pub fn limit(self, limit: usize) -> Readlines<S>
        requires unpolled { IsUnpolled self }
        ensures { result ≡ record self { limit = limit } }
    {
        Readlines { limit, ..self }
    }

    /// The number of bytes that came and were not returned or dropped yet: at most the limit and
    /// the last piece, and none once nothing follows.
    pub fn buffered(&self) -> usize
        ensures value { result ≡ length self.now.came }
        ensures within { result ≤ self.now.limit + self.now.last }
        ensures dropped { (IsReading self.now.progress → ⊥) → result ≡ 0 }
    {
        self.held.len() + self.piece.len()
    }

    /// The next line with its newline, the last one also without; `None` after the end, after an
    /// error, and where a poll before lacked memory. An error ends the lines, and what came of its
    /// line is dropped. Returns `Pending` where the payload stalls before the line is known, and
    /// `NoMemory` where allocation failed: it allocates where it returns a line or refuses one that
    /// is not UTF-8, and where a piece comes after the front of a line. With each line less work
    /// is left, so that a loop over lines ends.
    pub fn poll_next(&mut self, alloc: Global) -> Step<Option<Result<Text, ReadlinesError>>>
        ensures gives { StepGives
            (schedule_of S.feed self.old) result (schedule_of S.feed self.new) }
        ensures progress { self.new.progress ≡ progress_after self.old.progress result }
        ensures limit { self.new.limit ≡ self.old.limit }
        ensures payload { KeepsPayload S.feed self.old.payload self.new.payload }
        ensures pending { OnPending result (Rose
            (payload_feed S.feed self.old.payload).stalls
            (payload_feed S.feed self.new.payload).stalls) }
        ensures fault { OnFault result (Rose
            (payload_feed S.feed self.old.payload).faults
            (payload_feed S.feed self.new.payload).faults) }
        ensures too_long { OnTooLong result (self.old.limit
            < length self.old.came + bytes_between S.feed self.old.payload self.new.payload) }
        ensures closer { OnLine result (
            work_left (payload_feed S.feed self.new.payload).answers self.new.came
            < work_left (payload_feed S.feed self.old.payload).answers self.old.came) }
        ensures ended { IsReading self.old.progress → OnEnd result
            ((payload_feed S.feed self.new.payload).answers ≡ 0) }
        ensures unfailed { OnEnd result ((payload_feed S.feed self.new.payload).faults
            ≡ (payload_feed S.feed self.old.payload).faults) }
        ensures lacked { UnlessNoMemory result ((payload_feed S.feed self.new.payload).lacked
            ≡ (payload_feed S.feed self.old.payload).lacked) }
        ensures buffers { Buffers result (length self.old.came)
            (bytes_between S.feed self.old.payload self.new.payload) self.new.came }
        ensures dropped { (IsReading self.new.progress → ⊥) → self.new.came ≡ [] }
        ensures within { length self.new.came ≤ self.new.limit + self.new.last }
        ensures last { LastTaken
            (payload_feed S.feed self.old.payload).marks self.old.last
            (payload_feed S.feed self.new.payload).marks self.new.last }
        ensures stalled { IsReading self.old.progress → IsUnfinished self.old.limit self.old.came
            → StallsNext (payload_feed S.feed self.old.payload).marks → IsPending result }
        ensures memory { NeedsNoMemory self.old.limit self.old.came
            (payload_feed S.feed self.old.payload).marks → NeverNoMemory result }
        ensures refused { OnRefused self.old.progress (λ error.
            (result ≡ Ready (Some (Err (readlines.ContentTypeError error))))
            × (self.new ≡ record self.old { progress = Over })) }
        ensures over { self.old.progress ≡ Over
            → (result ≡ Ready None) × (self.new ≡ self.old) }
    {
        match self.progress {
            LinesState::Refused(error) => {
                self.progress = LinesState::Over;
                Step::Ready(Some(Err(ReadlinesError::ContentTypeError(error))))
            }
            LinesState::Reading => self.read_on(alloc),
            LinesState::Over => Step::Ready(None),
        }
    }

    /// Reads on to the next line. What came is dropped after an error.
    fn read_on(&mut self, alloc: Global) -> Step<Option<Result<Text, ReadlinesError>>>
        requires reading { self.old.progress ≡ Reading }
        ensures { ReadsLine S.feed self.old result self.new }
    {
        match next_line(
            alloc,
            &mut self.payload,
            &mut self.held,
            &mut self.piece,
            &mut self.last,
            &mut self.is_searched,
            self.limit,
        ) {
            LineStep::Pending => Step::Pending,
            LineStep::Line(line) => Step::Ready(Some(Ok(line))),
            LineStep::Failed(error) => {
                self.progress = LinesState::Over;
                drop_rest(&mut self.held, &mut self.piece);
                Step::Ready(Some(Err(error)))
            }
            LineStep::End => {
                self.progress = LinesState::Over;
                Step::Ready(None)
            }
            LineStep::NoMemory => {
                self.progress = LinesState::Over;
                drop_rest(&mut self.held, &mut self.piece);
                Step::NoMemory
            }
        }
    }
}

/// Drops what came and was not returned.
fn drop_rest(held: &mut Vec<u8>, piece: &mut Bytes)
    ensures held { held.new.items ≡ [] }
    ensures piece { piece.new ≡ [] }
{
    held.clear();
    piece.clear();
}
