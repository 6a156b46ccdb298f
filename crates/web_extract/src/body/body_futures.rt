//! The futures of arguments that are the whole body.
ghost use Rattle.std.specs.Prelude.{◌≡◌, ◌⊎◌, IfOk, false};
ghost use Rattle.web_body.specs.Payload.{payload_feed};
ghost use Rattle.web_extract.specs.BodyArguments.{MeansBodyAfter};
ghost use Rattle.web_extract.specs.BodyFutures.{DecodesStep, body_finished, bytes_gives};
ghost use Rattle.web_extract.specs.BodyFutures.{collected_step, refused_step};
ghost use Rattle.web_extract.specs.Extracts.{Extracts};
ghost use Rattle.web_extract.specs.StringArgument.{bytes_of, text_of};

use crate::bad_request::bad_request;
use crate::either_future::EitherFuture;
use crate::ready::Ready;
use bytes::Bytes;
use std::alloc::Global;
use std::marker::Model;
use std::str;
use web_body::{HttpMessageBody, Payload, PayloadError, Poll, Step};
use web_reply::Error;
use web_request::{App, HttpRequest, NoMemory, Source};

/// The future of a `Bytes` argument.
///
/// A refusal by the head is the result of the first poll, which then allocates nothing. Otherwise
/// it collects the payload that it took, as `HttpMessageBody` does, and keeps it also when it is
/// finished.
#[derive(Drop)]
pub struct BytesExtractFut<S> {
    stage: EitherFuture<Ready<Error>, HttpMessageBody<S>>,
}

impl<S> Model for BytesExtractFut<S> {
    ghost use Rattle.web_extract.specs.BodyFutures.{BodyFuture};

    ghost Value = { BodyFuture S };

    ghost view = { λ f. f.stage };
}

impl<S: Source> BytesExtractFut<S> {
    /// Begins with a refusal, which leaves the payload, or else with the collector, which takes it.
    // A call that hands on a future or its step copies it, so such calls are inlined: for a body
    // of `Bytes` all that are marked so in this crate spare 300 instructions.
    #[inline(always)]
    pub(crate) fn new<A: App<Source = S>>(
        alloc: Global,
        req: &HttpRequest<A>,
        payload: &mut Payload<S>,
        refusal: Option<Error>,
        limit: usize,
    ) -> BytesExtractFut<S>
        ensures fresh { body_finished result ≡ false }
        ensures extracts { Extracts
            (λ m rest n x. MeansBodyAfter refusal limit req.now.request.head.headers m rest n x)
            (bytes_gives S.feed result)
            (payload_feed S.feed payload.old).marks (payload_feed S.feed payload.new).marks }
        ensures payload { (payload.new ≡ payload.old) ⊎ (payload.new ≡ Payload.None) }
    {
        let stage = match refusal {
            Some(error) => EitherFuture::Left(Ready::new(error)),
            None => EitherFuture::Right(HttpMessageBody::under_limit(alloc, req, payload, limit)),
        };
        BytesExtractFut { stage }
    }
}

impl<S: Source> Poll for BytesExtractFut<S> {
    ghost use Rattle.std.specs.Prelude.{◌≡◌, false};
    ghost use Rattle.web_body.specs.PollSteps.{Ends, IfReady, NeverNoMemory, Shifts};
    ghost use Rattle.web_extract.specs.BodyFutures.{BytesNeedNoMemory, IsWithoutBody};
    ghost use Rattle.web_extract.specs.BodyFutures.{PollsCollector, StringNeedsNoMemory};
    ghost use Rattle.web_extract.specs.BodyFutures.{body_finished, bytes_gives, bytes_gives_some};

    type Output = Result<Bytes, Error>;

    ghost is_finished = { λ f. body_finished f };

    ghost gives = { λ f. bytes_gives S.feed f };

    ghost needs_no_memory = { λ f. BytesNeedNoMemory S.feed f };

    ghost some = { λ f h. bytes_gives_some S.feed f h };

    fn finished(&self) -> bool {
        match &self.stage {
            EitherFuture::Left(refusal) => refusal.finished(),
            EitherFuture::Right(body) => body.finished(),
        }
    }

    // Inlined as `new` is.
    #[inline(always)]
    fn poll(&mut self, alloc: Global) -> Step<Result<Bytes, Error>>
        requires unfinished { body_finished self.old ≡ false }
        ensures ends { Ends result (body_finished self.new) }
        ensures value { IfReady result (bytes_gives S.feed self.old 0) }
        ensures shift { Shifts result (bytes_gives S.feed self.old) (bytes_gives S.feed self.new) }
        ensures memory { BytesNeedNoMemory S.feed self.old → NeverNoMemory result }
        ensures without_body { StringNeedsNoMemory S.feed self.old → IsWithoutBody result }
        ensures polls { PollsCollector S.feed (λ s. result ≡ s) self.old self.new }
    {
        match &mut self.stage {
            EitherFuture::Left(refusal) => refused_step(refusal.poll(alloc)),
            EitherFuture::Right(body) => collected_step(body.poll(alloc)),
        }
    }
}

fn refused_step<T>(step: Step<Error>) -> Step<Result<T, Error>>
    ensures { result ≡ refused_step step }
{
    match step {
        Step::Pending => Step::Pending,
        Step::Ready(error) => Step::Ready(Err(error)),
        Step::NoMemory => Step::NoMemory,
    }
}

fn collected_step(step: Step<Result<Bytes, PayloadError>>) -> Step<Result<Bytes, Error>>
    ensures { result ≡ collected_step step }
{
    match step {
        Step::Pending => Step::Pending,
        Step::Ready(Ok(bytes)) => Step::Ready(Ok(bytes)),
        Step::Ready(Err(error)) => Step::Ready(Err(Error::from(error))),
        Step::NoMemory => Step::NoMemory,
    }
}

/// The future of a `String` argument. It is that of `Bytes`, and copies the whole body as a text.
#[derive(Drop)]
pub struct StringExtractFut<S> {
    body: BytesExtractFut<S>,
}

impl<S> Model for StringExtractFut<S> {
    ghost use Rattle.web_extract.specs.BodyFutures.{BodyFuture};

    ghost Value = { BodyFuture S };

    ghost view = { λ f. f.body };
}

impl<S> StringExtractFut<S> {
    pub(crate) fn new(body: BytesExtractFut<S>) -> StringExtractFut<S>
        ensures { result ≡ body }
    {
        StringExtractFut { body }
    }
}

impl<S: Source> Poll for StringExtractFut<S> {
    ghost use Rattle.std.specs.Prelude.{◌≡◌, false};
    ghost use Rattle.web_body.specs.PollSteps.{Ends, IfReady, NeverNoMemory, Shifts};
    ghost use Rattle.web_extract.specs.BodyFutures.{DecodesStep, PollsCollector};
    ghost use Rattle.web_extract.specs.BodyFutures.{StringNeedsNoMemory, body_finished};
    ghost use Rattle.web_extract.specs.BodyFutures.{bytes_gives, bytes_gives_some, string_gives};
    ghost use Rattle.web_extract.specs.StringArgument.{decodes_some};

    type Output = Result<String, Error>;

    ghost is_finished = { λ f. body_finished f };

    ghost gives = { λ f. string_gives S.feed f };

    ghost needs_no_memory = { λ f. StringNeedsNoMemory S.feed f };

    ghost some = { λ f h. decodes_some (bytes_gives S.feed f) (bytes_gives_some S.feed f h) };

    fn finished(&self) -> bool {
        self.body.finished()
    }

    fn poll(&mut self, alloc: Global) -> Step<Result<String, Error>>
        requires unfinished { body_finished self.old ≡ false }
        ensures ends { Ends result (body_finished self.new) }
        ensures value { IfReady result (string_gives S.feed self.old 0) }
        ensures shift { Shifts result
            (string_gives S.feed self.old) (string_gives S.feed self.new) }
        ensures memory { StringNeedsNoMemory S.feed self.old → NeverNoMemory result }
        ensures polls { PollsCollector S.feed (λ s. DecodesStep s result) self.old self.new }
    {
        decoded_step(alloc, self.body.poll(alloc))
    }
}

fn decoded_step(alloc: Global, step: Step<Result<Bytes, Error>>) -> Step<Result<String, Error>>
    ensures { DecodesStep step result }
{
    match step {
        Step::Pending => Step::Pending,
        Step::Ready(Ok(bytes)) => match decode(alloc, &bytes) {
            Ok(text) => Step::Ready(text),
            Err(NoMemory) => Step::NoMemory,
        },
        Step::Ready(Err(error)) => Step::Ready(Err(error)),
        Step::NoMemory => Step::NoMemory,
    }
}

/// A copy of a body as a text, or the refusal of a body that is not UTF-8.
fn decode(alloc: Global, bytes: &[u8]) -> Result<Result<String, Error>, NoMemory>
    ensures { IfOk result (λ x. bytes_of x ≡ text_of bytes.now) }
{
    match str::from_utf8(bytes) {
        Ok(text) => Ok(Ok(String::from_str(alloc, text)?)),
        Err(_) => Ok(Err(bad_request(alloc, "Can not decode body")?)),
    }
}
