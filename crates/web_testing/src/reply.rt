//! Replies as tests compare them.
ghost use Rattle.std.specs.Prelude.{◌≡◌, false, IfErr, IfOk, IsUtf8, MatchOption};
ghost use Rattle.std.specs.Option.{option_and_then, option_copied};
ghost use Rattle.http_header.specs.HeaderMap.{get};
ghost use Rattle.http_header.specs.Token.{lowercase};
ghost use Rattle.web_body.specs.Payload.{payload_feed};
ghost use Rattle.web_reply.specs.ResponseBodies.{box_plain};
ghost use Rattle.web_texts.specs.HeaderTexts.{header_text};
ghost use Rattle.web_worker.specs.Outcomes.{outcome_view};
ghost use Rattle.web_testing.specs.TestReplies.{HasBody, HasMarks, HasReply, RefusesBody};
ghost use Rattle.web_testing.specs.TestReplies.{RefusesPlain, RefusesReply, StillWaits};

use crate::error::TestError;
use crate::serving::MOST_POLLS;
use bytes::Bytes;
use http::StatusCode;
use http_header::{HeaderMap, HeaderValue};
use std::alloc::Global;
use std::marker::Model;
use std::str;
use web_body::{Payload, Poll, Step};
use web_reply::{BoxBody, HttpResponse};
use web_request::{App, Source};
use web_texts::header_text;
use web_worker::Outcome;

/// A reply whose body was read to its end.
#[derive(Drop)]
pub struct TestReply {
    response: HttpResponse<Bytes>,
}

impl Model for TestReply {
    ghost use Rattle.std.specs.Prelude.{List, ℕ};
    ghost use Rattle.web_reply.specs.Replies.{Reply};

    ghost Value = { Reply (List ℕ) };

    ghost view = { λ r. r.response };
}

/// Polls a future until its value is there, `MOST_POLLS` times at most. Returns the value, and how
/// many polls returned `Pending`.
fn value_of<F: Poll>(alloc: Global, mut future: F) -> Result<(usize, F::Output), TestError>
    requires { F.is_finished future ≡ false }
    ensures value { IfOk result (λ value. F.gives future value.0 value.1) }
    ensures refused { IfErr result (StillWaits (F.gives future)) }
{
    for stalls in 0..MOST_POLLS {
        match future.poll(alloc) {
            Step::Pending => {}
            Step::Ready(value) => return Ok((stalls, value)),
            Step::NoMemory => return Err(TestError::NoMemory),
        }
    }
    Err(TestError::Body)
}

/// The whole of a payload.
#[tactic(auto, using(crate::proofs::TestRepliesLemmas::has_marks))]
fn read_payload<S: Source>(alloc: Global, payload: Payload<S>) -> Result<Bytes, TestError>
    ensures bytes { IfOk result (λ bytes. HasMarks (payload_feed S.feed payload).marks bytes) }
    ensures refused { IfErr result (RefusesBody (payload_feed S.feed payload).marks) }
{
    match value_of(alloc, payload.to_bytes(alloc)) {
        Ok((_, Ok(bytes))) => Ok(bytes),
        Ok((_, Err(_))) => Err(TestError::Body),
        Err(error) => Err(error),
    }
}

/// The whole of a body.
fn read_body<S: Source>(alloc: Global, body: BoxBody<S>) -> Result<Bytes, TestError>
    ensures bytes { IfOk result (λ bytes. HasBody (box_plain S.feed body) bytes) }
    ensures refused { IfErr result (λ e. RefusesPlain (box_plain S.feed body) e) }
{
    match body {
        BoxBody::Empty => Ok(Bytes::new()),
        BoxBody::Bytes(bytes) => Ok(bytes),
        BoxBody::Sized(_, payload) | BoxBody::Stream(payload) => {
            read_payload(alloc, Box::into_inner(payload))
        }
    }
}

impl TestReply {
    /// The reply of an outcome. A body that is still to be read is read to its end, and polled
    /// `MOST_POLLS` times at most.
    pub fn of<A: App>(alloc: Global, outcome: Outcome<A>) -> Result<TestReply, TestError>
        ensures reply { IfOk result (λ reply.
            HasReply (outcome_view A.Source.feed outcome) reply) }
        ensures refused { IfErr result (λ e.
            RefusesReply (outcome_view A.Source.feed outcome) e) }
    {
        match outcome {
            Outcome::Reply(reply) => {
                let (head, body) = reply.into_parts();
                let body = read_body(alloc, body)?;
                Ok(TestReply {
                    response: head.set_body(body),
                })
            }
            Outcome::Unfinished => Err(TestError::Unfinished),
            Outcome::NoMemory => Err(TestError::NoMemory),
        }
    }

    /// The status (RFC 9110, section 15).
    pub fn status(&self) -> StatusCode
        ensures { result ≡ self.now.head.status }
    {
        self.response.status()
    }

    pub fn headers(&self) -> &HeaderMap<HeaderValue>
        ensures { result.now ≡ self.now.head.headers }
    {
        self.response.headers()
    }

    /// The first value of a header, where there is one and it is header text. The name is in any
    /// case.
    pub fn header(&self, name: &str) -> Option<&str>
        ensures { option_copied result
            ≡ option_and_then header_text (get self.now.head.headers (lowercase name.now)) }
    {
        match self.response.headers().get(name) {
            Some(value) => header_text(value),
            None => None,
        }
    }

    pub fn body(&self) -> &[u8]
        ensures { result.now ≡ self.now.body }
    {
        self.response.body().as_slice()
    }

    /// The body as a text, where it is UTF-8.
    pub fn text(&self) -> Option<&str>
        ensures { MatchOption result (¬ (IsUtf8 self.now.body)) (λ text. text.now ≡ self.now.body) }
    {
        match str::from_utf8(self.body()) {
            Ok(text) => Some(text),
            Err(_) => None,
        }
    }
}
