//! The collector of the body of a request.
ghost use Rattle.std.specs.Prelude.{◌≡◌, ◌≤◌, [], length, false};
ghost use Rattle.web_body.specs.HeadTests.{head_refusal, refusal_by};
ghost use Rattle.web_body.specs.Payload.{payload_feed};
ghost use Rattle.web_body.specs.MessageBody.{MeansBody, body_gives, default_limit};
ghost use Rattle.web_body.specs.MessageBody.{new_message_body, unpolled};
ghost use Rattle.web_body.specs.MessageBodyPolls.{payload_step};

use crate::body_collector::Collector;
use crate::collecting::Unread;
use crate::head_tests::{Declared, declared_length, head_refusal, is_coded};
use crate::payload::Payload;
use crate::poll::{Poll, Step};
use bytes::Bytes;
use std::alloc::Global;
use std::fmt;
use std::marker::Model;
use web_request::{App, HttpRequest, Source};

/// The limit of a body where no other is chosen, in bytes.
pub const DEFAULT_LIMIT: usize = 262_144;

const _: () = prove!(DEFAULT_LIMIT == 262_144);

/// Why a body could not be collected.
#[derive(Clone, Copy, Debug, PartialEq, Eq)]
pub enum PayloadError {
    /// The body has more bytes than the limit, or its head says so.
    Overflow,
    /// The first Content-Length (RFC 9110, section 8.6) is not digits alone, or is greater than a
    /// `usize` can be.
    UnknownLength,
    /// Reading failed.
    Io,
    /// The first Content-Encoding (RFC 9110, section 8.4) is not `identity`.
    UnsupportedEncoding,
}

impl fmt::Display for PayloadError {
    ghost use Rattle.std.specs.Prelude.{Some};
    ghost use Rattle.web_body.specs.ErrorTexts.{payload_error_text};

    ghost output = { λ e. Some (payload_error_text e) };

    fn fmt<W: fmt::Write>(&self, f: &mut fmt::Formatter<W>) -> fmt::Result {
        f.write_str(match self {
            PayloadError::Overflow => "payload reached its limit",
            PayloadError::UnknownLength => "payload length is unknown",
            PayloadError::Io => "payload read failed",
            PayloadError::UnsupportedEncoding => "content coding is not supported",
        })
    }
}

/// Collects the whole body of a request under a limit.
///
/// Before it reads, it tests the head, in this order: a Content-Length that cannot be read is
/// `UnknownLength`, one above the limit `Overflow`, and a Content-Encoding other than `identity`
/// `UnsupportedEncoding`. Such a refusal comes at the first poll, which allocates nothing and reads
/// nothing.
///
/// A poll returns `Pending` where the payload stalls, and allocates nothing where a stall comes
/// first. A body of one piece is not copied, and takes no memory; the pieces of every other body
/// are joined at its end. The collector keeps the payload that it took, also when it is finished.
#[derive(Drop)]
pub struct HttpMessageBody<S> {
    body: Collector<S>,
    declared: Declared,
    is_coded: bool,
    is_finished: bool,
}

impl<S> Model for HttpMessageBody<S> {
    ghost use Rattle.std.specs.Prelude.{◌≡◌, false};
    ghost use Rattle.web_body.specs.MessageBody.{MessageBody};

    ghost Value = { MessageBody S };

    ghost view = { λ b. record {
      payload = b.body.payload;
      held = b.body.held;
      limit = b.body.limit;
      declared = b.declared;
      is_coded = b.is_coded;
      is_finished = b.is_finished;
    } };

    ghost invariant = { λ b. b.is_finished ≡ false → b.body.is_finished ≡ false };
}

impl<S: Source> HttpMessageBody<S> {
    /// Takes the payload of a request, to collect it under the default limit, and keeps what the
    /// request's head says of it. It allocates nothing, and takes the payload also where the head
    /// refuses it.
    pub fn new<A: App<Source = S>>(
        alloc: Global,
        req: &HttpRequest<A>,
        payload: &mut Payload<S>,
    ) -> HttpMessageBody<S>
        ensures value { result
            ≡ new_message_body payload.old default_limit req.now.request.head.headers }
        ensures taken { payload.new ≡ Payload.None }
        ensures means { MeansBody
            (refusal_by req.now.request.head.headers default_limit) default_limit
            (payload_feed S.feed payload.old).marks (body_gives S.feed result) }
    {
        HttpMessageBody::under_limit(alloc, req, payload, DEFAULT_LIMIT)
    }

    /// The same under another limit, in bytes: `new` and `limit` in one call.
    pub fn under_limit<A: App<Source = S>>(
        _alloc: Global,
        req: &HttpRequest<A>,
        payload: &mut Payload<S>,
        limit: usize,
    ) -> HttpMessageBody<S>
        ensures value { result
            ≡ new_message_body payload.old limit req.now.request.head.headers }
        ensures taken { payload.new ≡ Payload.None }
        ensures means { MeansBody (refusal_by req.now.request.head.headers limit) limit
            (payload_feed S.feed payload.old).marks (body_gives S.feed result) }
    {
        let headers = &req.head().headers;
        HttpMessageBody {
            body: Collector::new(payload, limit),
            declared: declared_length(headers),
            is_coded: is_coded(headers),
            is_finished: false,
        }
    }

    /// Sets the limit, in bytes, which the declared length is compared with again; a length that
    /// cannot be read stays refused. It must not have been polled yet.
    pub fn limit(self, limit: usize) -> HttpMessageBody<S>
        requires empty { self.held ≡ [] }
        requires unfinished { self.is_finished ≡ false }
        ensures value { result ≡ unpolled self.payload limit self.declared self.is_coded }
        ensures means { MeansBody
            (head_refusal self.declared self.is_coded limit) limit
            (payload_feed S.feed self.payload).marks (body_gives S.feed result) }
    {
        let HttpMessageBody {
            body,
            declared,
            is_coded,
            ..
        } = self;
        HttpMessageBody {
            body: body.with_limit(limit),
            declared,
            is_coded,
            is_finished: false,
        }
    }

    /// The number of bytes that it holds, at most its limit.
    pub fn buffered(&self) -> usize
        ensures value { result ≡ length self.now.held }
        ensures within { result ≤ self.now.limit }
    {
        self.body.buffered()
    }
}

impl<S: Source> Poll for HttpMessageBody<S> {
    ghost use Rattle.std.specs.Prelude.{◌≡◌, ◌<◌, ◌≤◌, ◌+◌, length, false, Err, IfSome};
    ghost use Rattle.std.specs.Option.{IfNone};
    ghost use Rattle.web_texts.specs.Counts.{Rose};
    ghost use Rattle.web_body.specs.declared.poll.Step.TheVariants.{Ready};
    ghost use Rattle.web_body.specs.PollSteps.{Ends, IfReady, Shifts, OnPending};
    ghost use Rattle.web_body.specs.PollSteps.{IsPending, NeverNoMemory, UnlessNoMemory};
    ghost use Rattle.web_body.specs.CollectorPolls.{OnWhole, OnBody};
    ghost use Rattle.web_body.specs.Payload.{payload_feed, bytes_between, KeepsPayload};
    ghost use Rattle.web_body.specs.Collector.{StallsNext};
    ghost use Rattle.web_body.specs.MessageBody.{BodyNeedsNoMemory, body_gives, body_refusal};
    ghost use Rattle.web_body.specs.MessageBody.{body_some};
    ghost use Rattle.web_body.specs.MessageBodyPolls.{OnOverflow, OnIo, NotByHead};

    type Output = Result<Bytes, PayloadError>;

    ghost is_finished = { λ b. b.is_finished };

    ghost gives = { λ b. body_gives S.feed b };

    ghost needs_no_memory = { λ b. BodyNeedsNoMemory
        (body_refusal b) (payload_feed S.feed b.payload).marks b.held };

    ghost some = { λ b h. body_some S.feed b };

    fn finished(&self) -> bool {
        self.is_finished
    }

    fn poll(&mut self, alloc: Global) -> Step<Result<Bytes, PayloadError>>
        requires unfinished { self.old.is_finished ≡ false }
        ensures ends { Ends result self.new.is_finished }
        ensures value { IfReady result (body_gives S.feed self.old 0) }
        ensures shift { Shifts result (body_gives S.feed self.old) (body_gives S.feed self.new) }
        ensures memory { BodyNeedsNoMemory (body_refusal self.old)
            (payload_feed S.feed self.old.payload).marks self.old.held → NeverNoMemory result }
        ensures refused { IfSome (body_refusal self.old) (λ e.
            (result ≡ Ready (Err e)) × (self.new.payload ≡ self.old.payload)) }
        ensures stalled { IfNone (body_refusal self.old)
            (StallsNext (payload_feed S.feed self.old.payload).marks → IsPending result) }
        ensures limit { self.new.limit ≡ self.old.limit }
        ensures head { (self.new.declared ≡ self.old.declared)
            × (self.new.is_coded ≡ self.old.is_coded) }
        ensures payload { KeepsPayload S.feed self.old.payload self.new.payload }
        ensures pending { OnPending result (Rose
            (payload_feed S.feed self.old.payload).stalls
            (payload_feed S.feed self.new.payload).stalls) }
        ensures held { OnPending result (length self.new.held
            ≡ length self.old.held + bytes_between S.feed self.old.payload self.new.payload) }
        ensures within { OnPending result (length self.new.held ≤ self.new.limit) }
        ensures io { OnIo result (Rose
            (payload_feed S.feed self.old.payload).faults
            (payload_feed S.feed self.new.payload).faults) }
        ensures whole_ended { OnWhole result ((payload_feed S.feed self.new.payload).answers ≡ 0) }
        ensures whole_unfailed { OnWhole result ((payload_feed S.feed self.new.payload).faults
            ≡ (payload_feed S.feed self.old.payload).faults) }
        ensures lacked { UnlessNoMemory result ((payload_feed S.feed self.new.payload).lacked
            ≡ (payload_feed S.feed self.old.payload).lacked) }
        ensures whole_length { OnBody result (λ b. length b
            ≡ length self.old.held + bytes_between S.feed self.old.payload self.new.payload) }
        ensures whole_within { OnBody result (λ b. length b ≤ self.old.limit) }
        ensures by_head { IfNone (body_refusal self.old) (IfReady result NotByHead) }
        ensures overflow { IfNone (body_refusal self.old) (OnOverflow result (self.old.limit
            < length self.old.held + bytes_between S.feed self.old.payload self.new.payload)) }
    {
        if let Some(error) = head_refusal(self.declared, self.is_coded, self.body.limit()) {
            self.is_finished = true;
            return Step::Ready(Err(error));
        }
        let step = self.body.poll(alloc);
        self.is_finished = self.body.finished();
        payload_step(step)
    }
}

fn payload_step(step: Step<Result<Bytes, Unread>>) -> Step<Result<Bytes, PayloadError>>
    ensures { result ≡ payload_step step }
{
    match step {
        Step::Pending => Step::Pending,
        Step::Ready(Ok(bytes)) => Step::Ready(Ok(bytes)),
        Step::Ready(Err(Unread::TooLong(_))) => Step::Ready(Err(PayloadError::Overflow)),
        Step::Ready(Err(Unread::Failed)) => Step::Ready(Err(PayloadError::Io)),
        Step::NoMemory => Step::NoMemory,
    }
}
