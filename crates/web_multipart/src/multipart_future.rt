//! The future of the parts of a body.
ghost use Rattle.std.specs.Prelude.{◌≡◌, ◌+◌, ◌≤◌, [], false, IfOk, length};
ghost use Rattle.web_body.specs.Collector.{StallsNext};
ghost use Rattle.web_body.specs.Payload.{payload_feed};
ghost use Rattle.web_body.specs.PollSteps.{UnlessNoMemory};
ghost use Rattle.web_multipart_parts.specs.PartReading.{parts_left};
ghost use Rattle.web_multipart_stream.specs.PartStreams.{IsReading, KeepsStall};
ghost use Rattle.web_multipart.specs.Collections.{Collects, RefusesBy, collection_of};

use crate::multipart::Multipart;
use std::alloc::Global;
use std::marker::Model;
use std::mem;
use web_body::{Poll, Step};
use web_multipart_stream::{MultipartError, MultipartStream, Part};
use web_reply::Error;
use web_request::Source;

/// The future of a `Multipart` argument.
///
/// A refusal by the head is the result of the first poll, which reads nothing. Otherwise it takes
/// the parts of the stream as they come, and keeps its payload also when it is finished.
#[derive(Drop)]
pub struct MultipartExtractFut<S, const PART: usize> {
    stream: MultipartStream<S>,
    parts: Vec<Part>,
    is_finished: bool,
}

impl<S, const PART: usize> Model for MultipartExtractFut<S, PART> {
    ghost use Rattle.std.specs.Prelude.{◌+◌, ◌≤◌, length};
    ghost use Rattle.web_multipart_parts.specs.PartReading.{parts_left};
    ghost use Rattle.web_multipart.specs.Collections.{PartsFuture};

    ghost Value = { PartsFuture S };

    ghost view = { λ f. record {
      stream = f.stream;
      parts = f.parts.items;
      is_finished = f.is_finished;
    } };

    ghost invariant = { λ f. length f.parts.items + parts_left f.stream.reader ≤ 64 };
}

/// Takes the parts of a stream until it stalls or ends: `Ready(Ok(()))` after the last one.
fn take_parts<S: Source>(
    alloc: Global,
    stream: &mut MultipartStream<S>,
    parts: &mut Vec<Part>,
) -> Step<Result<(), MultipartError>>
    requires few { length parts.old.items + parts_left stream.old.reader ≤ 64 }
    ensures collects { Collects (collection_of S.feed stream.old parts.old.items)
        result parts.new.items (collection_of S.feed stream.new parts.new.items) }
    ensures lacked { IsReading stream.old.progress
        → UnlessNoMemory result ((payload_feed S.feed stream.new.payload).lacked
        ≡ (payload_feed S.feed stream.old.payload).lacked) }
    ensures stalled { IsReading stream.old.progress
        → StallsNext (payload_feed S.feed stream.old.payload).marks → KeepsStall result
        (payload_feed S.feed stream.old.payload).marks
        (payload_feed S.feed stream.new.payload).marks }
    ensures few { length parts.new.items + parts_left stream.new.reader ≤ 64 }
{
    'polls: loop {
        match stream.poll_next(alloc) {
            Step::Pending => return Step::Pending,
            Step::Ready(Some(Ok(part))) => match parts.push(part) {
                Ok(()) => {}
                Err(_) => return Step::NoMemory,
            },
            Step::Ready(Some(Err(error))) => return Step::Ready(Err(error)),
            Step::Ready(None) => return Step::Ready(Ok(())),
            Step::NoMemory => return Step::NoMemory,
        }
    }
}

/// The refusal of a request by this error.
fn refused<T>(alloc: Global, error: MultipartError) -> Step<Result<T, Error>>
    ensures { RefusesBy error result }
{
    match error.into_error(alloc) {
        Ok(error) => Step::Ready(Err(error)),
        Err(_) => Step::NoMemory,
    }
}

impl<S: Source, const PART: usize> MultipartExtractFut<S, PART> {
    pub(crate) fn new(alloc: Global, stream: MultipartStream<S>) -> MultipartExtractFut<S, PART>
        requires { parts_left stream.reader ≤ 64 }
        ensures { result ≡ record { stream = stream; parts = []; is_finished = false } }
    {
        MultipartExtractFut {
            stream,
            parts: Vec::new(alloc),
            is_finished: false,
        }
    }
}

impl<S: Source, const PART: usize> Poll for MultipartExtractFut<S, PART> {
    ghost use Rattle.std.specs.Prelude.{◌≡◌, false};
    ghost use Rattle.web_body.specs.Collector.{StallsNext};
    ghost use Rattle.web_body.specs.Payload.{payload_feed};
    ghost use Rattle.web_body.specs.PollSteps.{Ends, IfReady, NeverNoMemory, Shifts};
    ghost use Rattle.web_body.specs.PollSteps.{UnlessNoMemory};
    ghost use Rattle.web_multipart_stream.specs.PartStreams.{IsReading, KeepsStall};
    ghost use Rattle.web_multipart.specs.Collections.{parts_gives, parts_some};

    type Output = Result<Multipart<PART>, Error>;

    ghost is_finished = { λ f. f.is_finished };

    ghost gives = { λ f n x. parts_gives S.feed f n x };

    ghost some = { λ f h. parts_some S.feed f };

    fn finished(&self) -> bool {
        self.is_finished
    }

    fn poll(&mut self, alloc: Global) -> Step<Result<Multipart<PART>, Error>>
        requires unfinished { self.old.is_finished ≡ false }
        ensures ends { Ends result self.new.is_finished }
        ensures value { IfReady result (parts_gives S.feed self.old 0) }
        ensures shift { Shifts result (parts_gives S.feed self.old) (parts_gives S.feed self.new) }
        ensures memory { ⊥ → NeverNoMemory result }
        ensures lacked { IsReading self.old.stream.progress
            → UnlessNoMemory result ((payload_feed S.feed self.new.stream.payload).lacked
            ≡ (payload_feed S.feed self.old.stream.payload).lacked) }
        ensures stalled { IsReading self.old.stream.progress
            → StallsNext (payload_feed S.feed self.old.stream.payload).marks → KeepsStall result
            (payload_feed S.feed self.old.stream.payload).marks
            (payload_feed S.feed self.new.stream.payload).marks }
    {
        match take_parts(alloc, &mut self.stream, &mut self.parts) {
            Step::Pending => Step::Pending,
            Step::Ready(Ok(())) => {
                self.is_finished = true;
                let parts = mem::replace(&mut self.parts, Vec::new(alloc));
                Step::Ready(Ok(Multipart::new(parts)))
            }
            Step::Ready(Err(error)) => {
                self.is_finished = true;
                refused(alloc, error)
            }
            Step::NoMemory => {
                self.is_finished = true;
                Step::NoMemory
            }
        }
    }
}
