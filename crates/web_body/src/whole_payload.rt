//! All bytes of a payload, without a limit and under one.
ghost use Rattle.std.specs.Prelude.{◌≡◌};
ghost use Rattle.web_body.specs.Payload.{payload_feed};
ghost use Rattle.web_body.specs.Collector.{MeansReading, new_collector};
ghost use Rattle.web_body.specs.CollectorPolls.{OnTooLong};
ghost use Rattle.web_body.specs.MessageBody.{answer_of, payload_answer};
ghost use Rattle.web_body.specs.WholePayloads.{MeansAll, answered_step, answers_give};
ghost use Rattle.web_body.specs.WholePayloads.{limited_answer, limited_of, no_limit};

use crate::body_collector::Collector;
use crate::collecting::Unread;
use crate::message_body::PayloadError;
use crate::payload::Payload;
use crate::poll::{Poll, Step};
use bytes::Bytes;
use std::alloc::Global;
use std::fmt;
use std::marker::Model;
use web_request::Source;

/// The limit of a payload that is collected without one. No body passes it: the pieces of a source
/// total less than 2^63 bytes, and so do those that a collector holds.
const NO_LIMIT: usize = usize::MAX;

const _: () = prove!(NO_LIMIT == 18_446_744_073_709_551_615);

/// A payload has more bytes than the limit that `Payload::to_bytes_limited` was given.
#[derive(Clone, Copy, Debug, PartialEq, Eq)]
pub struct BodyLimitExceeded;

impl fmt::Display for BodyLimitExceeded {
    ghost use Rattle.std.specs.Prelude.{Some};
    ghost use Rattle.web_body.specs.ErrorTexts.{body_limit_text};

    ghost output = { λ _. Some body_limit_text };

    fn fmt<W: fmt::Write>(&self, f: &mut fmt::Formatter<W>) -> fmt::Result {
        f.write_str("body limit exceeded")
    }
}

impl<S: Source> Payload<S> {
    /// Collects all bytes, without a limit. It allocates nothing.
    pub fn to_bytes(self, _alloc: Global) -> ToBytes<S>
        ensures value { result ≡ new_collector self no_limit }
        ensures means { MeansAll answer_of
            (payload_feed S.feed self).marks (answers_give answer_of S.feed result) }
    {
        let mut payload = self;
        ToBytes {
            body: Collector::new(&mut payload, NO_LIMIT),
        }
    }

    /// Collects all bytes, up to a limit in bytes. It allocates nothing.
    pub fn to_bytes_limited(self, _alloc: Global, limit: usize) -> ToBytesLimited<S>
        ensures value { result ≡ new_collector self limit }
        ensures means { MeansReading limited_of limit
            (payload_feed S.feed self).marks (answers_give limited_of S.feed result) }
    {
        let mut payload = self;
        ToBytesLimited {
            body: Collector::new(&mut payload, limit),
        }
    }
}

/// The future of all bytes of a payload: the bytes, or `PayloadError::Io` where its source returned
/// `Fault`. It returns no other error.
///
/// A poll returns `Pending` where the payload stalls, and allocates nothing where a stall comes
/// first. It keeps the payload that it took, also when it is finished.
#[derive(Drop)]
pub struct ToBytes<S> {
    body: Collector<S>,
}

impl<S> Model for ToBytes<S> {
    ghost use Rattle.std.specs.Prelude.{◌≡◌};
    ghost use Rattle.web_body.specs.Collector.{Collector as Seen};
    ghost use Rattle.web_body.specs.WholePayloads.{no_limit};

    ghost Value = { Seen S };

    ghost view = { λ b. b.body };

    ghost invariant = { λ b. b.body.limit ≡ no_limit };
}

impl<S: Source> Poll for ToBytes<S> {
    ghost use Rattle.std.specs.Prelude.{◌≡◌, ◌+◌, false, length};
    ghost use Rattle.web_texts.specs.Counts.{Rose};
    ghost use Rattle.web_body.specs.PollSteps.{Ends, IfReady, IsPending, NeverNoMemory};
    ghost use Rattle.web_body.specs.PollSteps.{OnPending, Shifts, UnlessNoMemory};
    ghost use Rattle.web_body.specs.Payload.{KeepsPayload, bytes_between, payload_feed};
    ghost use Rattle.web_body.specs.Collector.{NeedsNoMemory, StallsNext};
    ghost use Rattle.web_body.specs.CollectorPolls.{OnWhole, OnBody};
    ghost use Rattle.web_body.specs.MessageBody.{answer_of};
    ghost use Rattle.web_body.specs.MessageBodyPolls.{OnIo};
    ghost use Rattle.web_body.specs.WholePayloads.{IoAlone, answers_give, answers_some};

    type Output = Result<Bytes, PayloadError>;

    ghost is_finished = { λ b. b.is_finished };

    ghost gives = { λ b. answers_give answer_of S.feed b };

    ghost needs_no_memory = { λ b. NeedsNoMemory (payload_feed S.feed b.payload).marks b.held };

    ghost some = { λ b h. answers_some answer_of S.feed b };

    fn finished(&self) -> bool {
        self.body.finished()
    }

    fn poll(&mut self, alloc: Global) -> Step<Result<Bytes, PayloadError>>
        requires unfinished { self.old.is_finished ≡ false }
        ensures ends { Ends result self.new.is_finished }
        ensures value { IfReady result (answers_give answer_of S.feed self.old 0) }
        ensures shift { Shifts result
            (answers_give answer_of S.feed self.old) (answers_give answer_of S.feed self.new) }
        ensures memory { NeedsNoMemory (payload_feed S.feed self.old.payload).marks self.old.held
            → NeverNoMemory result }
        ensures stalled { StallsNext (payload_feed S.feed self.old.payload).marks
            → IsPending result }
        ensures io_alone { IoAlone result }
        ensures payload { KeepsPayload S.feed self.old.payload self.new.payload }
        ensures pending { OnPending result (Rose
            (payload_feed S.feed self.old.payload).stalls
            (payload_feed S.feed self.new.payload).stalls) }
        ensures io { OnIo result (Rose
            (payload_feed S.feed self.old.payload).faults
            (payload_feed S.feed self.new.payload).faults) }
        ensures whole_ended { OnWhole result ((payload_feed S.feed self.new.payload).answers ≡ 0) }
        ensures whole_unfailed { OnWhole result ((payload_feed S.feed self.new.payload).faults
            ≡ (payload_feed S.feed self.old.payload).faults) }
        ensures lacked { UnlessNoMemory result ((payload_feed S.feed self.new.payload).lacked
            ≡ (payload_feed S.feed self.old.payload).lacked) }
        ensures whole_length { OnBody result (λ b. length b
            ≡ length self.old.held + bytes_between S.feed self.old.payload self.new.payload) }
    {
        all_step(self.body.poll(alloc))
    }
}

fn all_step(step: Step<Result<Bytes, Unread>>) -> Step<Result<Bytes, PayloadError>>
    requires { OnTooLong step ⊥ }
    ensures { result ≡ answered_step payload_answer step }
{
    match step {
        Step::Pending => Step::Pending,
        Step::Ready(Ok(bytes)) => Step::Ready(Ok(bytes)),
        Step::Ready(Err(Unread::TooLong(_))) => unreachable!(),
        Step::Ready(Err(Unread::Failed)) => Step::Ready(Err(PayloadError::Io)),
        Step::NoMemory => Step::NoMemory,
    }
}

/// The future of all bytes of a payload under a limit: the bytes, or `PayloadError::Io` where its
/// source returned `Fault`, both in `Ok`; or `BodyLimitExceeded` where more bytes than the limit
/// came before the end or the fault.
///
/// A poll returns `Pending` where the payload stalls, and allocates nothing where a stall comes
/// first. It keeps the payload that it took, also when it is finished.
#[derive(Drop)]
pub struct ToBytesLimited<S> {
    body: Collector<S>,
}

impl<S> Model for ToBytesLimited<S> {
    ghost use Rattle.web_body.specs.Collector.{Collector as Seen};

    ghost Value = { Seen S };

    ghost view = { λ b. b.body };
}

impl<S: Source> Poll for ToBytesLimited<S> {
    ghost use Rattle.std.specs.Prelude.{◌≡◌, ◌<◌, ◌≤◌, ◌+◌, false, length, IfOk};
    ghost use Rattle.web_texts.specs.Counts.{Rose};
    ghost use Rattle.web_body.specs.PollSteps.{Ends, IfReady, IsPending, NeverNoMemory};
    ghost use Rattle.web_body.specs.PollSteps.{OnPending, Shifts, UnlessNoMemory};
    ghost use Rattle.web_body.specs.Payload.{KeepsPayload, bytes_between, payload_feed};
    ghost use Rattle.web_body.specs.Collector.{NeedsNoMemory, StallsNext};
    ghost use Rattle.web_body.specs.CollectorPolls.{IfWhole};
    ghost use Rattle.web_body.specs.MessageBodyPolls.{IfIo};
    ghost use Rattle.web_body.specs.WholePayloads.{IfIoAlone, OnExceeded, OnWithin};
    ghost use Rattle.web_body.specs.WholePayloads.{answers_give, answers_some, limited_of};

    type Output = Result<Result<Bytes, PayloadError>, BodyLimitExceeded>;

    ghost is_finished = { λ b. b.is_finished };

    ghost gives = { λ b. answers_give limited_of S.feed b };

    ghost needs_no_memory = { λ b. NeedsNoMemory (payload_feed S.feed b.payload).marks b.held };

    ghost some = { λ b h. answers_some limited_of S.feed b };

    fn finished(&self) -> bool {
        self.body.finished()
    }

    fn poll(
        &mut self,
        alloc: Global,
    ) -> Step<Result<Result<Bytes, PayloadError>, BodyLimitExceeded>>
        requires unfinished { self.old.is_finished ≡ false }
        ensures ends { Ends result self.new.is_finished }
        ensures value { IfReady result (answers_give limited_of S.feed self.old 0) }
        ensures shift { Shifts result
            (answers_give limited_of S.feed self.old) (answers_give limited_of S.feed self.new) }
        ensures memory { NeedsNoMemory (payload_feed S.feed self.old.payload).marks self.old.held
            → NeverNoMemory result }
        ensures stalled { StallsNext (payload_feed S.feed self.old.payload).marks
            → IsPending result }
        ensures io_alone { OnWithin result (λ x. IfIoAlone x) }
        ensures limit { self.new.limit ≡ self.old.limit }
        ensures payload { KeepsPayload S.feed self.old.payload self.new.payload }
        ensures pending { OnPending result (Rose
            (payload_feed S.feed self.old.payload).stalls
            (payload_feed S.feed self.new.payload).stalls) }
        ensures held { OnPending result (length self.new.held
            ≡ length self.old.held + bytes_between S.feed self.old.payload self.new.payload) }
        ensures io { OnWithin result (λ x. IfIo x (Rose
            (payload_feed S.feed self.old.payload).faults
            (payload_feed S.feed self.new.payload).faults)) }
        ensures whole_ended { OnWithin result (λ x. IfWhole x
            ((payload_feed S.feed self.new.payload).answers ≡ 0)) }
        ensures whole_unfailed { OnWithin result (λ x. IfWhole x
            ((payload_feed S.feed self.new.payload).faults
            ≡ (payload_feed S.feed self.old.payload).faults)) }
        ensures lacked { UnlessNoMemory result ((payload_feed S.feed self.new.payload).lacked
            ≡ (payload_feed S.feed self.old.payload).lacked) }
        ensures whole_length { OnWithin result (λ x. IfOk x (λ b. length b
            ≡ length self.old.held + bytes_between S.feed self.old.payload self.new.payload)) }
        ensures whole_within { OnWithin result (λ x. IfOk x (λ b. length b ≤ self.old.limit)) }
        ensures exceeded { OnExceeded result (self.old.limit
            < length self.old.held + bytes_between S.feed self.old.payload self.new.payload) }
    {
        limited_step(self.body.poll(alloc))
    }
}

fn limited_step(
    step: Step<Result<Bytes, Unread>>,
) -> Step<Result<Result<Bytes, PayloadError>, BodyLimitExceeded>>
    ensures { result ≡ answered_step limited_answer step }
{
    match step {
        Step::Pending => Step::Pending,
        Step::Ready(Ok(bytes)) => Step::Ready(Ok(Ok(bytes))),
        Step::Ready(Err(Unread::TooLong(_))) => Step::Ready(Err(BodyLimitExceeded)),
        Step::Ready(Err(Unread::Failed)) => Step::Ready(Ok(Err(PayloadError::Io))),
        Step::NoMemory => Step::NoMemory,
    }
}
