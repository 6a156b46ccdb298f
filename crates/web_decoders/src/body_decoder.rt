//! Collectors that decode the body which they collected.
ghost use Rattle.std.specs.Prelude.{◌≡◌, ◌≤◌, ℕ, List, Result, IfOk, [], false, length};
ghost use Rattle.web_body.specs.Payload.{payload_feed};
ghost use Rattle.web_body.specs.Collector.{Read};
ghost use Rattle.web_decoders.specs.Decoding.{Decoding as Seen, new_decoding, decoding_gives};
ghost use Rattle.web_decoders.specs.Decoding.{MeansDecoded, DecodesSome};

use bytes::Bytes;
use std::alloc::Global;
use std::marker::Model;
use web_body::{Collector, Payload, Poll, Step, Unread};
use web_request::{NoMemory, Source};

/// What a body is decoded to, once it is collected.
pub trait Decode: Drop {
    ghost use Rattle.web_body.specs.Collector.{Read};

    /// The value.
    type Value: Drop;

    /// Why there is no value.
    type Error: Drop;

    /// Whether this may come of this body.
    ghost decodes: { Self → Read → Result Self.Value Self.Error → Type 0 };

    /// Decodes a body, or turns the reason why it was not read into an error.
    fn decode(
        &self,
        alloc: Global,
        read: Result<Bytes, Unread>,
    ) -> Result<Result<Self::Value, Self::Error>, NoMemory>
        ensures { IfOk result (λ x. decodes self.now read x) };

    /// It cannot be that nothing may come of a body.
    ghost some: { (d : Self) → DecodesSome (decodes d) };
}

/// Collects a body up to a limit and decodes it, unless it is refused before it is read. Such a
/// refusal comes at the first poll, which reads nothing and allocates nothing.
#[derive(Drop)]
pub struct Decoding<D, S, E> {
    body: Collector<S>,
    decoder: D,
    refusal: Option<E>,
    is_finished: bool,
}

impl<D, S, E> Model for Decoding<D, S, E> {
    ghost use Rattle.std.specs.Prelude.{◌≡◌, false};
    ghost use Rattle.web_decoders.specs.Decoding.{Decoding as Seen};

    ghost Value = { Seen D S E };

    ghost view = { λ b. record {
      body = b.body;
      decoder = b.decoder;
      refusal = b.refusal;
      is_finished = b.is_finished;
    } };

    ghost invariant = { λ b. b.is_finished ≡ false → b.body.is_finished ≡ false };
}

impl<E: Drop, D: Decode<Error = E>, S: Source> Decoding<D, S, E> {
    /// Takes a payload, to collect it under a limit in bytes, unless there is a refusal. It
    /// allocates nothing.
    pub fn new(
        payload: &mut Payload<S>,
        limit: usize,
        decoder: D,
        refusal: Option<E>,
    ) -> Decoding<D, S, E>
        ensures value { result ≡ new_decoding payload.old limit decoder refusal }
        ensures taken { payload.new ≡ Payload.None }
        ensures means { MeansDecoded (D.decodes decoder) limit refusal
            (payload_feed S.feed payload.old).marks (decoding_gives S.feed D.decodes result) }
    {
        Decoding {
            body: Collector::new(payload, limit),
            decoder,
            refusal,
            is_finished: false,
        }
    }

    /// What is left of the payload.
    pub fn into_payload(self) -> Payload<S>
        ensures { result ≡ self.body.payload }
    {
        let Decoding { body, .. } = self;
        body.into_payload()
    }

    /// The number of bytes that it holds, at most its limit.
    pub fn buffered(&self) -> usize
        ensures value { result ≡ length self.now.body.held }
        ensures within { result ≤ self.now.body.limit }
    {
        self.body.buffered()
    }
}

impl<E: Drop, D: Decode<Error = E>, S: Source> Poll for Decoding<D, S, E> {
    ghost use Rattle.std.specs.Prelude.{◌≡◌, false};
    ghost use Rattle.web_body.specs.PollSteps.{Ends, IfReady, NeverNoMemory, Shifts};
    ghost use Rattle.web_body.specs.Payload.{payload_feed};
    ghost use Rattle.web_decoders.specs.Decoding.{DecodingNeedsNoMemory, PollsDecoding};
    ghost use Rattle.web_decoders.specs.Decoding.{decoding_gives, decoding_some};

    type Output = Result<D::Value, E>;

    ghost is_finished = { λ b. b.is_finished };

    ghost gives = { λ b. decoding_gives S.feed D.decodes b };

    ghost needs_no_memory = { λ b. DecodingNeedsNoMemory
        b.refusal (payload_feed S.feed b.body.payload).marks };

    ghost some = { λ b h. decoding_some S.feed D.decodes D.some b };

    fn finished(&self) -> bool {
        self.is_finished
    }

    fn poll(&mut self, alloc: Global) -> Step<Result<D::Value, E>>
        requires unfinished { self.old.is_finished ≡ false }
        ensures ends { Ends result self.new.is_finished }
        ensures value { IfReady result (decoding_gives S.feed D.decodes self.old 0) }
        ensures shift { Shifts result
            (decoding_gives S.feed D.decodes self.old)
            (decoding_gives S.feed D.decodes self.new) }
        ensures memory { DecodingNeedsNoMemory self.old.refusal
            (payload_feed S.feed self.old.body.payload).marks → NeverNoMemory result }
        ensures polled { PollsDecoding S.feed D.decodes self.old result self.new }
    {
        if let Some(error) = self.refusal.take() {
            self.is_finished = true;
            return Step::Ready(Err(error));
        }
        match self.body.poll(alloc) {
            Step::Pending => Step::Pending,
            Step::NoMemory => {
                self.is_finished = true;
                Step::NoMemory
            }
            Step::Ready(read) => {
                self.is_finished = true;
                match self.decoder.decode(alloc, read) {
                    Ok(answer) => Step::Ready(answer),
                    Err(_) => Step::NoMemory,
                }
            }
        }
    }
}
