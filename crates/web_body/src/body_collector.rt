//! The collector that every other one stands on.
ghost use Rattle.std.specs.Prelude.{◌≡◌, ◌≤◌, [], length, false};
ghost use Rattle.web_body.specs.Payload.{payload_feed, bytes_between, KeepsPayload};
ghost use Rattle.web_body.specs.Collector.{Collector as Seen, new_collector, collector_gives};
ghost use Rattle.web_body.specs.Collector.{MeansReading, read_of};

use crate::collecting::{Unread, collect};
use crate::held::Held;
use crate::payload::Payload;
use crate::poll::{Poll, Step};
use bytes::Bytes;
use std::alloc::Global;
use std::marker::Model;
use web_request::Source;

/// Collects a whole payload under a limit, whatever the head of its request says.
///
/// A poll returns `Pending` where the payload stalls, and allocates nothing where a stall comes
/// first. A body of one piece is not copied, and takes no memory; the pieces of every other body
/// are joined at its end. The collector keeps the payload that it took, also when it is finished.
#[derive(Drop)]
pub struct Collector<S> {
    payload: Payload<S>,
    held: Held,
    limit: usize,
    is_finished: bool,
}

impl<S> Model for Collector<S> {
    ghost use Rattle.std.specs.Prelude.{◌≤◌, length};
    ghost use Rattle.web_body.specs.HeldBytes.{held_bytes};
    ghost use Rattle.web_body.specs.Collector.{Collector as Seen};

    ghost Value = { Seen S };

    ghost view = { λ b. record {
      payload = b.payload;
      held = held_bytes b.held;
      limit = b.limit;
      is_finished = b.is_finished;
    } };

    ghost invariant = { λ b. length (held_bytes b.held) ≤ b.limit };
}

impl<S: Source> Collector<S> {
    /// Takes a payload, to collect it under a limit in bytes. It allocates nothing.
    pub fn new(payload: &mut Payload<S>, limit: usize) -> Collector<S>
        ensures value { result ≡ new_collector payload.old limit }
        ensures taken { payload.new ≡ Payload.None }
        ensures means { MeansReading read_of limit
            (payload_feed S.feed payload.old).marks (collector_gives S.feed result) }
    {
        Collector {
            payload: payload.take(),
            held: Held::new(),
            limit,
            is_finished: false,
        }
    }

    /// Sets the limit, in bytes. It must not have been polled yet.
    pub fn with_limit(self, limit: usize) -> Collector<S>
        requires empty { self.held ≡ [] }
        requires unfinished { self.is_finished ≡ false }
        ensures value { result ≡ new_collector self.payload limit }
        ensures means { MeansReading read_of limit
            (payload_feed S.feed self.payload).marks (collector_gives S.feed result) }
    {
        let Collector { payload, .. } = self;
        Collector {
            payload,
            held: Held::new(),
            limit,
            is_finished: false,
        }
    }

    /// What is left of the payload.
    pub fn into_payload(self) -> Payload<S>
        ensures { result ≡ self.payload }
    {
        let Collector { payload, .. } = self;
        payload
    }

    /// The limit, in bytes.
    pub fn limit(&self) -> usize
        ensures { result ≡ self.now.limit }
    {
        self.limit
    }

    /// The number of bytes that it holds, at most its limit.
    pub fn buffered(&self) -> usize
        ensures value { result ≡ length self.now.held }
        ensures within { result ≤ self.now.limit }
    {
        self.held.len()
    }
}

impl<S: Source> Poll for Collector<S> {
    ghost use Rattle.std.specs.Prelude.{◌≡◌, ◌<◌, ◌≤◌, ◌+◌, length, false};
    ghost use Rattle.web_texts.specs.Counts.{Rose};
    ghost use Rattle.web_body.specs.PollSteps.{Ends, IfReady, Shifts, OnPending, UnlessNoMemory};
    ghost use Rattle.web_body.specs.PollSteps.{IsPending, NeverNoMemory};
    ghost use Rattle.web_body.specs.CollectorPolls.{OnWhole, OnTooLong, OnFailed};
    ghost use Rattle.web_body.specs.CollectorPolls.{OnBody, OnSize};
    ghost use Rattle.web_body.specs.Payload.{payload_feed, bytes_between, KeepsPayload};
    ghost use Rattle.web_body.specs.Collector.{collector_gives, collector_some};
    ghost use Rattle.web_body.specs.Collector.{NeedsNoMemory, StallsNext};

    type Output = Result<Bytes, Unread>;

    ghost is_finished = { λ b. b.is_finished };

    ghost gives = { λ b. collector_gives S.feed b };

    ghost needs_no_memory = { λ b. NeedsNoMemory (payload_feed S.feed b.payload).marks b.held };

    ghost some = { λ b h. collector_some S.feed b };

    fn finished(&self) -> bool {
        self.is_finished
    }

    fn poll(&mut self, alloc: Global) -> Step<Result<Bytes, Unread>>
        requires unfinished { self.old.is_finished ≡ false }
        ensures ends { Ends result self.new.is_finished }
        ensures value { IfReady result (collector_gives S.feed self.old 0) }
        ensures shift { Shifts result
            (collector_gives S.feed self.old) (collector_gives S.feed self.new) }
        ensures memory { NeedsNoMemory (payload_feed S.feed self.old.payload).marks self.old.held
            → NeverNoMemory result }
        ensures stalled { StallsNext (payload_feed S.feed self.old.payload).marks
            → IsPending result }
        ensures limit { self.new.limit ≡ self.old.limit }
        ensures payload { KeepsPayload S.feed self.old.payload self.new.payload }
        ensures pending { OnPending result (Rose
            (payload_feed S.feed self.old.payload).stalls
            (payload_feed S.feed self.new.payload).stalls) }
        ensures held { OnPending result (length self.new.held
            ≡ length self.old.held + bytes_between S.feed self.old.payload self.new.payload) }
        ensures within { OnPending result (length self.new.held ≤ self.new.limit) }
        ensures failed { OnFailed result (Rose
            (payload_feed S.feed self.old.payload).faults
            (payload_feed S.feed self.new.payload).faults) }
        ensures whole_ended { OnWhole result ((payload_feed S.feed self.new.payload).answers ≡ 0) }
        ensures whole_unfailed { OnWhole result ((payload_feed S.feed self.new.payload).faults
            ≡ (payload_feed S.feed self.old.payload).faults) }
        ensures lacked { UnlessNoMemory result ((payload_feed S.feed self.new.payload).lacked
            ≡ (payload_feed S.feed self.old.payload).lacked) }
        ensures whole_length { OnBody result (λ b. length b
            ≡ length self.old.held + bytes_between S.feed self.old.payload self.new.payload) }
        ensures whole_within { OnBody result (λ b. length b ≤ self.old.limit) }
        ensures too_long { OnTooLong result (self.old.limit
            < length self.old.held + bytes_between S.feed self.old.payload self.new.payload) }
        ensures size { OnSize result (λ n. n
            ≡ length self.old.held + bytes_between S.feed self.old.payload self.new.payload) }
        ensures limited { OnTooLong result (self.old.limit < 18446744073709551615) }
    {
        let step = collect(alloc, &mut self.payload, &mut self.held, self.limit);
        self.is_finished = match &step {
            Step::Pending => false,
            Step::Ready(_) => true,
            Step::NoMemory => true,
        };
        step
    }
}
