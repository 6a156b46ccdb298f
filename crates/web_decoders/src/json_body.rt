//! The collector of a JSON body.
ghost use Rattle.std.specs.Prelude.{◌≡◌, ◌≤◌, [], false, length, Ok, IfOk, IfSome, IsOk, OnErr};
ghost use Rattle.std.specs.Prelude.{◌⊎◌, codes, option_copied};
ghost use Rattle.web_request.specs.MessageFields.{first_content_type};
ghost use Rattle.web_body.specs.Payload.{payload_feed};
ghost use Rattle.web_decoders.specs.Decoding.{MeansDecoded};
ghost use Rattle.web_decoders.specs.JsonBodies.{JsonAnswer, json_gives, new_json_body};
ghost use Rattle.web_decoders.specs.JsonHeads.{head_under, json_head, json_refusal};
ghost use Rattle.web_decoders.specs.LeftPayloads.{left_where, taken_where};
ghost use Rattle.web_decoders.specs.TypePredicates.{ReadsType};
ghost use Rattle.web_decoders.specs.WrittenTypes.{NeedsNoReading};

use crate::body_decoder::{Decode, Decoding};
use crate::json_head::{JsonHead, reads_type};
use crate::taken::take_where;
use bytes::Bytes;
use std::alloc::Global;
use std::marker::{Model, PhantomData};
use web_body::{
    AllowType, DEFAULT_JSON_LIMIT, JsonPayloadError, Payload, PayloadError, Poll, Step, Unread,
};
use web_codec::{ReadJson, decode_json};
use web_request::{App, HttpRequest, Source};
use web_texts::{Fail, NoMemory};

/// Decodes a JSON body that was read under a limit. It is seen as that limit.
#[derive(Drop)]
pub struct JsonDecoder<T> {
    limit: usize,
    target: PhantomData<T>,
}

impl<T> Model for JsonDecoder<T> {
    ghost use Rattle.std.specs.Prelude.{ℕ};

    ghost Value = { ℕ };

    ghost view = { λ d. d.limit };
}

impl<T: ReadJson> Decode for JsonDecoder<T> {
    ghost use Rattle.web_decoders.specs.JsonBodies.{JsonAnswer, json_answer_some};

    type Value = T;

    type Error = JsonPayloadError;

    ghost decodes = { λ d y x. JsonAnswer T.reads d y x };

    ghost some = { λ d. json_answer_some T.reads d };

    fn decode(
        &self,
        alloc: Global,
        read: Result<Bytes, Unread>,
    ) -> Result<Result<T, JsonPayloadError>, NoMemory> {
        match read {
            Err(Unread::TooLong(_)) => Ok(Err(JsonPayloadError::Overflow { limit: self.limit })),
            Err(Unread::Failed) => Ok(Err(JsonPayloadError::Payload(PayloadError::Io))),
            Ok(bytes) => match decode_json(alloc, bytes.as_slice()) {
                Ok(value) => Ok(Ok(value)),
                Err(Fail::NoMemory) => Err(NoMemory),
                Err(Fail::Of(e)) => Ok(Err(JsonPayloadError::Deserialize(e))),
            },
        }
    }
}

/// Collects the body of a request under a limit and reads a value from its JSON.
///
/// Before it reads, it tests the head, in this order: where a media type is required, one that is
/// absent, unreadable, neither of JSON nor allowed is `ContentType`; a Content-Length above a limit
/// that was set is `OverflowKnownLength`; and a Content-Encoding other than `identity` is
/// `UnsupportedEncoding`. Such a refusal comes at the first poll, which reads nothing and allocates
/// nothing.
///
/// Then a body of more bytes than the limit is `Overflow`, one that fails is `Payload(Io)`, and one
/// that gives no value is `Deserialize`.
#[derive(Drop)]
pub struct JsonBody<T, S> {
    decoding: Decoding<JsonDecoder<T>, S, JsonPayloadError>,
    head: JsonHead,
}

impl<T, S> Model for JsonBody<T, S> {
    ghost use Rattle.web_decoders.specs.JsonBodies.{JsonBody as Seen};

    ghost Value = { Seen S };

    ghost view = { λ b. record { decoding = b.decoding; head = b.head } };
}

impl<T: ReadJson, S: Source> JsonBody<T, S> {
    /// Takes the payload of a request, to collect it under the default limit, and tests its head.
    /// The payload is left where its media type may not be read, and where allocation failed, which
    /// it does not where no media type is required, or Content-Type is `application/json` as it
    /// stands, or absent.
    ///
    /// A Content-Length is compared only where `limit` is called.
    pub fn new<A: App<Source = S>, P: AllowType>(
        alloc: Global,
        req: &HttpRequest<A>,
        payload: &mut Payload<S>,
        ctype_fn: Option<&P>,
        ctype_required: bool,
    ) -> Result<JsonBody<T, S>, NoMemory>
        requires { IfSome ctype_fn (λ p. P.ready p.now) }
        ensures head { IfOk result (λ b. ReadsType P.allows_type (option_copied ctype_fn.entry)
            ctype_required req.now.request.head.headers b.head.is_read) }
        ensures value { IfOk result (λ b. b ≡ new_json_body
            (taken_where b.head.is_read payload.old) 2097152
            (json_head b.head.is_read req.now.request.head.headers)) }
        ensures left { IfOk result (λ b. payload.new ≡ left_where b.head.is_read payload.old) }
        ensures kept { OnErr result (payload.new ≡ payload.old) }
        ensures memory { (ctype_required ≡ false) ⊎ NeedsNoReading (codes "application/json")
            (first_content_type req.now.request.head.headers) → IsOk result }
        ensures means { IfOk result (λ b. MeansDecoded (JsonAnswer T.reads 2097152) 2097152
            (json_refusal b.head)
            (payload_feed S.feed (taken_where b.head.is_read payload.old)).marks
            (json_gives S.feed T.reads b)) }
    {
        let is_read = reads_type(alloc, req, ctype_fn, ctype_required)?;
        let head = JsonHead::of(&req.head().headers, is_read);
        let taken = take_where(payload, is_read);
        Ok(JsonBody::of(taken, DEFAULT_JSON_LIMIT, head))
    }

    /// The same under another limit, in bytes, which the declared length is compared with: `new`
    /// and `limit` in one call.
    pub fn under_limit<A: App<Source = S>, P: AllowType>(
        alloc: Global,
        req: &HttpRequest<A>,
        payload: &mut Payload<S>,
        ctype_fn: Option<&P>,
        ctype_required: bool,
        limit: usize,
    ) -> Result<JsonBody<T, S>, NoMemory>
        requires { IfSome ctype_fn (λ p. P.ready p.now) }
        ensures head { IfOk result (λ b. ReadsType P.allows_type (option_copied ctype_fn.entry)
            ctype_required req.now.request.head.headers b.head.is_read) }
        ensures value { IfOk result (λ b. b ≡ new_json_body
            (taken_where b.head.is_read payload.old) limit
            (head_under limit (json_head b.head.is_read req.now.request.head.headers))) }
        ensures left { IfOk result (λ b. payload.new ≡ left_where b.head.is_read payload.old) }
        ensures kept { OnErr result (payload.new ≡ payload.old) }
        ensures memory { (ctype_required ≡ false) ⊎ NeedsNoReading (codes "application/json")
            (first_content_type req.now.request.head.headers) → IsOk result }
        ensures means { IfOk result (λ b. MeansDecoded (JsonAnswer T.reads limit) limit
            (json_refusal b.head)
            (payload_feed S.feed (taken_where b.head.is_read payload.old)).marks
            (json_gives S.feed T.reads b)) }
    {
        let is_read = reads_type(alloc, req, ctype_fn, ctype_required)?;
        let head = JsonHead::of(&req.head().headers, is_read).under(limit);
        let taken = take_where(payload, is_read);
        Ok(JsonBody::of(taken, limit, head))
    }

    fn of(payload: Payload<S>, limit: usize, head: JsonHead) -> JsonBody<T, S>
        ensures value { result ≡ new_json_body payload limit head }
        ensures means { MeansDecoded (JsonAnswer T.reads limit) limit (json_refusal head)
            (payload_feed S.feed payload).marks (json_gives S.feed T.reads result) }
    {
        let mut payload = payload;
        let decoder = JsonDecoder {
            limit,
            target: PhantomData,
        };
        JsonBody {
            decoding: Decoding::new(&mut payload, limit, decoder, head.refusal()),
            head,
        }
    }

    /// Sets the limit, in bytes, which the declared length is compared with. A length that an
    /// earlier limit refused stays refused. It must not have been polled yet.
    pub fn limit(self, limit: usize) -> JsonBody<T, S>
        requires empty { self.decoding.body.held ≡ [] }
        requires unfinished { self.decoding.is_finished ≡ false }
        ensures value { result
            ≡ new_json_body self.decoding.body.payload limit (head_under limit self.head) }
        ensures means { MeansDecoded (JsonAnswer T.reads limit) limit
            (json_refusal (head_under limit self.head))
            (payload_feed S.feed self.decoding.body.payload).marks
            (json_gives S.feed T.reads result) }
    {
        let JsonBody { decoding, head } = self;
        JsonBody::of(decoding.into_payload(), limit, head.under(limit))
    }

    /// The number of bytes that it holds, at most its limit.
    pub fn buffered(&self) -> usize
        ensures value { result ≡ length self.now.decoding.body.held }
        ensures within { result ≤ self.now.decoding.body.limit }
    {
        self.decoding.buffered()
    }
}

impl<T: ReadJson, S: Source> Poll for JsonBody<T, S> {
    ghost use Rattle.std.specs.Prelude.{◌≡◌, false};
    ghost use Rattle.std.specs.Option.{IfNone};
    ghost use Rattle.web_body.specs.PollSteps.{Ends, IfReady, NeverNoMemory, Shifts};
    ghost use Rattle.web_body.specs.Payload.{payload_feed};
    ghost use Rattle.web_decoders.specs.Decoding.{DecodingNeedsNoMemory, PollsDecoding};
    ghost use Rattle.web_decoders.specs.Decoding.{decoding_some};
    ghost use Rattle.web_decoders.specs.JsonBodies.{JsonCame};
    ghost use Rattle.web_decoders.specs.JsonBodies.{JsonAnswer, json_answer_some, json_gives};

    type Output = Result<T, JsonPayloadError>;

    ghost is_finished = { λ b. b.decoding.is_finished };

    ghost gives = { λ b. json_gives S.feed T.reads b };

    ghost needs_no_memory = { λ b. DecodingNeedsNoMemory
        b.decoding.refusal (payload_feed S.feed b.decoding.body.payload).marks };

    ghost some = { λ b h. decoding_some S.feed (λ d. JsonAnswer T.reads d)
        (json_answer_some T.reads) b.decoding };

    fn finished(&self) -> bool {
        self.decoding.finished()
    }

    fn poll(&mut self, alloc: Global) -> Step<Result<T, JsonPayloadError>>
        requires unfinished { self.old.decoding.is_finished ≡ false }
        ensures ends { Ends result self.new.decoding.is_finished }
        ensures value { IfReady result (json_gives S.feed T.reads self.old 0) }
        ensures shift { Shifts result
            (json_gives S.feed T.reads self.old) (json_gives S.feed T.reads self.new) }
        ensures memory { DecodingNeedsNoMemory self.old.decoding.refusal
            (payload_feed S.feed self.old.decoding.body.payload).marks → NeverNoMemory result }
        ensures polled { PollsDecoding S.feed (λ d. JsonAnswer T.reads d)
            self.old.decoding result self.new.decoding }
        ensures came { IfNone self.old.decoding.refusal (IfReady result (λ x.
            JsonCame S.feed self.old.decoding.body x self.new.decoding.body)) }
    {
        self.decoding.poll(alloc)
    }
}
