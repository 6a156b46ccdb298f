//! The collector of a form.
ghost use Rattle.std.specs.Prelude.{◌≡◌, ◌≤◌, [], false, length, IfOk, IsOk, OnErr, codes};
ghost use Rattle.web_request.specs.MessageFields.{first_content_type};
ghost use Rattle.web_body.specs.Payload.{payload_feed};
ghost use Rattle.web_decoders.specs.Decoding.{MeansDecoded};
ghost use Rattle.web_decoders.specs.FormBodies.{FormAnswer, form_gives, new_form_body};
ghost use Rattle.web_decoders.specs.FormHeads.{form_head, form_refusal, takes_form};
ghost use Rattle.web_decoders.specs.LeftPayloads.{left_where, taken_where};
ghost use Rattle.web_decoders.specs.WrittenTypes.{NeedsNoReading};

use crate::body_decoder::{Decode, Decoding};
use crate::form_head::FormHead;
use crate::taken::take_where;
use bytes::Bytes;
use std::alloc::Global;
use std::marker::{Model, PhantomData};
use web_body::{Payload, PayloadError, Poll, Step, Unread, UrlencodedError};
use web_codec::{ReadPairs, decode_form};
use web_request::{App, HttpRequest, Source};
use web_texts::{Fail, NoMemory};

/// The limit of a form where no other is chosen, in bytes.
pub const DEFAULT_FORM_LIMIT: usize = 32_768;

const _: () = prove!(DEFAULT_FORM_LIMIT == 32_768);

/// Decodes a form that was read under a limit. It is seen as that limit.
#[derive(Drop)]
pub struct FormDecoder<T> {
    limit: usize,
    target: PhantomData<T>,
}

impl<T> Model for FormDecoder<T> {
    ghost use Rattle.std.specs.Prelude.{ℕ};

    ghost Value = { ℕ };

    ghost view = { λ d. d.limit };
}

impl<T: ReadPairs> Decode for FormDecoder<T> {
    ghost use Rattle.web_decoders.specs.FormBodies.{FormAnswer, form_answer_some};

    type Value = T;

    type Error = UrlencodedError;

    ghost decodes = { λ d y x. FormAnswer T.reads_pairs d y x };

    ghost some = { λ d. form_answer_some T.reads_pairs d };

    fn decode(
        &self,
        alloc: Global,
        read: Result<Bytes, Unread>,
    ) -> Result<Result<T, UrlencodedError>, NoMemory> {
        match read {
            Err(Unread::TooLong(size)) => Ok(Err(UrlencodedError::Overflow {
                size,
                limit: self.limit,
            })),
            Err(Unread::Failed) => Ok(Err(UrlencodedError::Payload(PayloadError::Io))),
            Ok(bytes) => match decode_form(alloc, bytes.as_slice()) {
                Ok(value) => Ok(Ok(value)),
                Err(Fail::NoMemory) => Err(NoMemory),
                Err(Fail::Of(e)) => Ok(Err(UrlencodedError::Parse(e))),
            },
        }
    }
}

/// Collects the body of a request under a limit and reads a value from its pairs.
///
/// Before it reads, it tests the head, in this order: a content type other than
/// `application/x-www-form-urlencoded`, or with a charset other than UTF-8, is `ContentType`; a
/// Content-Length that cannot be read is `UnknownLength`, one above the limit `Overflow` with that
/// length; and a Content-Encoding other than `identity` is `UnsupportedEncoding`. Such a refusal
/// comes at the first poll, which reads nothing and allocates nothing.
///
/// Then a body of more bytes than the limit is `Overflow` with the size of the first pieces that
/// pass it, one that fails is `Payload(Io)`, and one that the reader refuses is `Parse`.
#[derive(Drop)]
pub struct UrlEncoded<T, S> {
    decoding: Decoding<FormDecoder<T>, S, UrlencodedError>,
    head: FormHead,
}

impl<T, S> Model for UrlEncoded<T, S> {
    ghost use Rattle.web_decoders.specs.FormBodies.{FormBody};

    ghost Value = { FormBody S };

    ghost view = { λ b. record { decoding = b.decoding; head = b.head } };
}

impl<T: ReadPairs, S: Source> UrlEncoded<T, S> {
    /// Takes the payload of a request, to collect it under the default limit, and tests its head.
    /// The payload is left where the head refuses it as `ContentType` or `UnknownLength`, and where
    /// allocation failed, which it does not where Content-Type is
    /// `application/x-www-form-urlencoded` as it stands, or absent.
    pub fn new<A: App<Source = S>>(
        alloc: Global,
        req: &HttpRequest<A>,
        payload: &mut Payload<S>,
    ) -> Result<UrlEncoded<T, S>, NoMemory>
        ensures value { IfOk result (λ b. b ≡ new_form_body
            (taken_where (takes_form (form_head req.now.request.head.headers)) payload.old) 32768
            (form_head req.now.request.head.headers)) }
        ensures left { IfOk result (λ b. payload.new
            ≡ left_where (takes_form (form_head req.now.request.head.headers)) payload.old) }
        ensures kept { OnErr result (payload.new ≡ payload.old) }
        ensures memory { NeedsNoReading (codes "application/x-www-form-urlencoded")
            (first_content_type req.now.request.head.headers) → IsOk result }
        ensures means { IfOk result (λ b. MeansDecoded (FormAnswer T.reads_pairs 32768) 32768
            (form_refusal b.head 32768)
            (payload_feed S.feed (taken_where (takes_form b.head) payload.old)).marks
            (form_gives S.feed T.reads_pairs b)) }
    {
        UrlEncoded::under_limit(alloc, req, payload, DEFAULT_FORM_LIMIT)
    }

    /// The same under another limit, in bytes: `new` and `limit` in one call.
    pub fn under_limit<A: App<Source = S>>(
        alloc: Global,
        req: &HttpRequest<A>,
        payload: &mut Payload<S>,
        limit: usize,
    ) -> Result<UrlEncoded<T, S>, NoMemory>
        ensures value { IfOk result (λ b. b ≡ new_form_body
            (taken_where (takes_form (form_head req.now.request.head.headers)) payload.old) limit
            (form_head req.now.request.head.headers)) }
        ensures left { IfOk result (λ b. payload.new
            ≡ left_where (takes_form (form_head req.now.request.head.headers)) payload.old) }
        ensures kept { OnErr result (payload.new ≡ payload.old) }
        ensures memory { NeedsNoReading (codes "application/x-www-form-urlencoded")
            (first_content_type req.now.request.head.headers) → IsOk result }
        ensures means { IfOk result (λ b. MeansDecoded (FormAnswer T.reads_pairs limit) limit
            (form_refusal b.head limit)
            (payload_feed S.feed (taken_where (takes_form b.head) payload.old)).marks
            (form_gives S.feed T.reads_pairs b)) }
    {
        let head = FormHead::of(alloc, req)?;
        let taken = take_where(payload, head.takes());
        Ok(UrlEncoded::of(taken, limit, head))
    }

    fn of(payload: Payload<S>, limit: usize, head: FormHead) -> UrlEncoded<T, S>
        ensures value { result ≡ new_form_body payload limit head }
        ensures means { MeansDecoded (FormAnswer T.reads_pairs limit) limit
            (form_refusal head limit) (payload_feed S.feed payload).marks
            (form_gives S.feed T.reads_pairs result) }
    {
        let mut payload = payload;
        let decoder = FormDecoder {
            limit,
            target: PhantomData,
        };
        UrlEncoded {
            decoding: Decoding::new(&mut payload, limit, decoder, head.refusal(limit)),
            head,
        }
    }

    /// Sets the limit, in bytes, which the declared length is compared with again. It must not have
    /// been polled yet.
    pub fn limit(self, limit: usize) -> UrlEncoded<T, S>
        requires empty { self.decoding.body.held ≡ [] }
        requires unfinished { self.decoding.is_finished ≡ false }
        ensures value { result ≡ new_form_body self.decoding.body.payload limit self.head }
        ensures means { MeansDecoded (FormAnswer T.reads_pairs limit) limit
            (form_refusal self.head limit)
            (payload_feed S.feed self.decoding.body.payload).marks
            (form_gives S.feed T.reads_pairs result) }
    {
        let UrlEncoded { decoding, head } = self;
        UrlEncoded::of(decoding.into_payload(), limit, head)
    }

    /// The number of bytes that it holds, at most its limit.
    pub fn buffered(&self) -> usize
        ensures value { result ≡ length self.now.decoding.body.held }
        ensures within { result ≤ self.now.decoding.body.limit }
    {
        self.decoding.buffered()
    }
}

impl<T: ReadPairs, S: Source> Poll for UrlEncoded<T, S> {
    ghost use Rattle.std.specs.Prelude.{◌≡◌, false};
    ghost use Rattle.std.specs.Option.{IfNone};
    ghost use Rattle.web_body.specs.PollSteps.{Ends, IfReady, NeverNoMemory, Shifts};
    ghost use Rattle.web_body.specs.Payload.{payload_feed};
    ghost use Rattle.web_decoders.specs.Decoding.{DecodingNeedsNoMemory, PollsDecoding};
    ghost use Rattle.web_decoders.specs.Decoding.{decoding_some};
    ghost use Rattle.web_decoders.specs.FormBodies.{FormCame};
    ghost use Rattle.web_decoders.specs.FormBodies.{FormAnswer, form_answer_some, form_gives};

    type Output = Result<T, UrlencodedError>;

    ghost is_finished = { λ b. b.decoding.is_finished };

    ghost gives = { λ b. form_gives S.feed T.reads_pairs b };

    ghost needs_no_memory = { λ b. DecodingNeedsNoMemory
        b.decoding.refusal (payload_feed S.feed b.decoding.body.payload).marks };

    ghost some = { λ b h. decoding_some S.feed (λ d. FormAnswer T.reads_pairs d)
        (form_answer_some T.reads_pairs) b.decoding };

    fn finished(&self) -> bool {
        self.decoding.finished()
    }

    fn poll(&mut self, alloc: Global) -> Step<Result<T, UrlencodedError>>
        requires unfinished { self.old.decoding.is_finished ≡ false }
        ensures ends { Ends result self.new.decoding.is_finished }
        ensures value { IfReady result (form_gives S.feed T.reads_pairs self.old 0) }
        ensures shift { Shifts result
            (form_gives S.feed T.reads_pairs self.old) (form_gives S.feed T.reads_pairs self.new) }
        ensures memory { DecodingNeedsNoMemory self.old.decoding.refusal
            (payload_feed S.feed self.old.decoding.body.payload).marks → NeverNoMemory result }
        ensures polled { PollsDecoding S.feed (λ d. FormAnswer T.reads_pairs d)
            self.old.decoding result self.new.decoding }
        ensures came { IfNone self.old.decoding.refusal (IfReady result (λ x.
            FormCame S.feed self.old.decoding.body x self.new.decoding.body)) }
    {
        self.decoding.poll(alloc)
    }
}
