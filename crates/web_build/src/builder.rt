//! The builder of a response.
ghost use Rattle.std.specs.Prelude.{◌≡◌, None, Some, Ok as ok, IfOk, IsOk, IsOkAnd, IsTrue};
ghost use Rattle.std.specs.Prelude.{OnErr, OnOk, codes, false, is_none};
ghost use Rattle.http_header.specs.FieldValue.{is_visible_text, plain_value};
ghost use Rattle.web_body.specs.Payload.{payload_feed};
ghost use Rattle.web_reply.specs.ResponseBodies.{Plain, box_plain, whole_plain};
ghost use Rattle.web_reply.specs.Replies.{error_reply, plain_reply};
ghost use Rattle.web_reply.specs.HeaderSteps.{StepsTo, named, valued};
ghost use Rattle.web_build.specs.Builders.{BuildsJson, after_message, built_reply, default_type};
ghost use Rattle.web_build.specs.Builders.{finished_reply, ignores_setters, message_of};
ghost use Rattle.web_build.specs.Builders.{mark_no_chunking};
ghost use Rattle.web_build.specs.Builders.{new_building, put_header, put_unless_refused};
ghost use Rattle.web_build.specs.Builders.{put_upgrade, reply_of, said_length, set_connection};
ghost use Rattle.web_build.specs.Builders.{set_no_chunking, set_reason, set_status, set_upgrade};
ghost use Rattle.web_build.specs.Builders.{sized_reply, spent_building, streamed_reply};
ghost use Rattle.web_build.specs.Builders.{typed_headers, upgraded};
ghost use Rattle.web_reply.specs.CookieHeaders.{cookie_header};

use http::StatusCode;
use http_header::{CONTENT_LENGTH, CONTENT_TYPE, HeaderMap, HeaderName, HeaderValue, UPGRADE};
use std::alloc::Global;
use std::marker::Model;
use web_body::{JsonPayloadError, Payload, Poll, Step, WriteJson, write_value};
use web_cookies::Cookie;
use web_reply::header_setting::{Placing, named, place_header, place_one, valued};
use web_reply::{
    BoxBody, ConnectionType, Error, HttpError, HttpResponse, MessageBody, Reason, Responder,
    WholeBody, cookie_header,
};
use web_request::{App, HttpRequest, Source};
use web_texts::{Fail, NoMemory, TryIntoHeaderValue, first_text, read_digits};

/// A response that is built step by step.
///
/// A setter that refuses a name, a value or one more header keeps the error, and leaves the
/// response. While an error is kept, setters change nothing, and what is built is the reply to that
/// error. A builder is spent once its response was built or its content was taken: setters then
/// change nothing, and nothing may be built.
#[derive(Drop)]
pub struct HttpResponseBuilder {
    alloc: Global,
    response: Option<HttpResponse<()>>,
    error: Option<HttpError>,
}

impl Model for HttpResponseBuilder {
    ghost use Rattle.web_build.specs.Builders.{Building};

    ghost Value = { Building };

    ghost view = { λ b. record { response = b.response; error = b.error } };
}

/// Gives the builder of a response.
pub trait Build {
    /// The builder of a response with this status.
    fn build(alloc: Global, status: StatusCode) -> HttpResponseBuilder
        ensures { result ≡ new_building status };
}

impl Build for HttpResponse<WholeBody> {
    fn build(alloc: Global, status: StatusCode) -> HttpResponseBuilder {
        HttpResponseBuilder::new(alloc, status)
    }
}

impl HttpResponseBuilder {
    /// The builder of an HTTP/1.1 response with this status, no header and an empty body.
    pub fn new(alloc: Global, status: StatusCode) -> HttpResponseBuilder
        ensures { result ≡ new_building status }
    {
        HttpResponseBuilder {
            alloc,
            response: Some(HttpResponse::with_body(alloc, status, ())),
            error: None,
        }
    }

    /// Whether the response was built or the content taken.
    pub fn is_spent(&self) -> bool
        ensures { result ≡ is_none self.now.response }
    {
        self.response.is_none()
    }

    /// Takes the content, and leaves a spent builder.
    pub fn take(&mut self) -> HttpResponseBuilder
        ensures taken { result ≡ self.old }
        ensures left { self.new ≡ spent_building }
    {
        HttpResponseBuilder {
            alloc: self.alloc,
            response: self.response.take(),
            error: self.error.take(),
        }
    }

    /// Sets the status.
    pub fn status(&mut self, status: StatusCode) -> &mut HttpResponseBuilder
        ensures same_reference { result.ghost_name ≡ self.entry.ghost_name }
        ensures value { result.now ≡ set_status status self.old }
    {
        match self.error {
            Some(_) => {}
            None => match &mut self.response {
                Some(response) => response.head_mut().status = status,
                None => {}
            },
        }
        self
    }

    /// Sets the reason phrase (RFC 9112, section 4) in place of the status's own.
    pub fn reason(&mut self, reason: &'static str) -> &mut HttpResponseBuilder
        ensures same_reference { result.ghost_name ≡ self.entry.ghost_name }
        ensures value { result.now ≡ set_reason reason.now self.old }
    {
        match self.error {
            Some(_) => {}
            None => match &mut self.response {
                Some(response) => response.head_mut().reason = Some(Reason::of(reason)),
                None => {}
            },
        }
        self
    }

    /// Sets what happens to the connection, unless an error is kept or the builder is spent.
    fn connect(&mut self, connection: ConnectionType)
        ensures { self.new ≡ set_connection connection self.old }
    {
        match self.error {
            Some(_) => {}
            None => match &mut self.response {
                Some(response) => response.head_mut().connection = Some(connection),
                None => {}
            },
        }
    }

    /// Says that the connection is kept open.
    pub fn keep_alive(&mut self) -> &mut HttpResponseBuilder
        ensures same_reference { result.ghost_name ≡ self.entry.ghost_name }
        ensures value { result.now ≡ set_connection ConnectionType.KeepAlive self.old }
    {
        self.connect(ConnectionType::KeepAlive);
        self
    }

    /// Says that the connection is closed.
    pub fn force_close(&mut self) -> &mut HttpResponseBuilder
        ensures same_reference { result.ghost_name ≡ self.entry.ghost_name }
        ensures value { result.now ≡ set_connection ConnectionType.Close self.old }
    {
        self.connect(ConnectionType::Close);
        self
    }

    /// Puts a header that was not refused, unless an error is kept or the builder is spent, and
    /// keeps a refusal.
    fn put(
        &mut self,
        placing: Placing,
        header: Result<(HeaderName, HeaderValue), HttpError>,
    ) -> Result<(), NoMemory>
        ensures ok { OnOk result (self.new ≡ put_header placing header self.old) }
        ensures err { OnErr result (self.new ≡ self.old) }
        ensures memory { IsTrue (ignores_setters self.old) → IsOk result }
    {
        match self.error {
            Some(_) => Ok(()),
            None => match &mut self.response {
                None => Ok(()),
                Some(response) => match place_one(response.headers_mut(), placing, header) {
                    Ok(()) => Ok(()),
                    Err(Fail::NoMemory) => Err(NoMemory),
                    Err(Fail::Of(error)) => {
                        self.error = Some(error);
                        Ok(())
                    }
                },
            },
        }
    }

    /// Sets a header in place of all those of its name. Where an error is kept or the builder is
    /// spent, this takes no memory.
    pub fn insert_header(
        &mut self,
        name: HeaderName,
        value: HeaderValue,
    ) -> Result<&mut HttpResponseBuilder, NoMemory>
        ensures same_reference { IfOk result (λ b. b.ghost_name ≡ self.entry.ghost_name) }
        ensures value { IfOk result (λ b.
            b.now ≡ put_header Placing.Replace (ok (name, value)) self.old) }
        ensures memory { IsTrue (ignores_setters self.old) → IsOk result }
    {
        self.put(Placing::Replace, Ok((name, value)))?;
        Ok(self)
    }

    /// Adds a header after those of its name. Where an error is kept or the builder is spent, this
    /// takes no memory.
    pub fn append_header(
        &mut self,
        name: HeaderName,
        value: HeaderValue,
    ) -> Result<&mut HttpResponseBuilder, NoMemory>
        ensures same_reference { IfOk result (λ b. b.ghost_name ≡ self.entry.ghost_name) }
        ensures value { IfOk result (λ b.
            b.now ≡ put_header Placing.Append (ok (name, value)) self.old) }
        ensures memory { IsTrue (ignores_setters self.old) → IsOk result }
    {
        self.put(Placing::Append, Ok((name, value)))?;
        Ok(self)
    }

    /// As `set_header`, of a text.
    pub fn try_insert_header(
        &mut self,
        name: &str,
        value: &str,
    ) -> Result<&mut HttpResponseBuilder, NoMemory>
        ensures same_reference { IfOk result (λ b. b.ghost_name ≡ self.entry.ghost_name) }
        ensures value { IfOk result (λ b.
            b.now ≡ put_header Placing.Replace (named name.now (plain_value value.now)) self.old) }
    {
        self.set_header(name, value)
    }

    /// As `header`, of a text.
    pub fn try_append_header(
        &mut self,
        name: &str,
        value: &str,
    ) -> Result<&mut HttpResponseBuilder, NoMemory>
        ensures same_reference { IfOk result (λ b. b.ghost_name ≡ self.entry.ghost_name) }
        ensures value { IfOk result (λ b.
            b.now ≡ put_header Placing.Append (named name.now (plain_value value.now)) self.old) }
    {
        self.header(name, value)
    }

    /// Sets a header in place of all those of its name. `HttpError::Name` is kept where the name is
    /// no field name (RFC 9110, section 5.1), else `HttpError::Value` where the value is no field
    /// value (section 5.5).
    pub fn set_header<V: TryIntoHeaderValue + Drop>(
        &mut self,
        name: &str,
        value: V,
    ) -> Result<&mut HttpResponseBuilder, NoMemory>
        ensures same_reference { IfOk result (λ b. b.ghost_name ≡ self.entry.ghost_name) }
        ensures value { IfOk result (λ b.
            b.now ≡ put_header Placing.Replace (named name.now (V.value value)) self.old) }
    {
        let header = named(self.alloc, name, value)?;
        self.put(Placing::Replace, header)?;
        Ok(self)
    }

    /// Adds a header after those of its name. A name or a value is refused as by `set_header`.
    pub fn header<V: TryIntoHeaderValue + Drop>(
        &mut self,
        name: &str,
        value: V,
    ) -> Result<&mut HttpResponseBuilder, NoMemory>
        ensures same_reference { IfOk result (λ b. b.ghost_name ≡ self.entry.ghost_name) }
        ensures value { IfOk result (λ b.
            b.now ≡ put_header Placing.Append (named name.now (V.value value)) self.old) }
    {
        let header = named(self.alloc, name, value)?;
        self.put(Placing::Append, header)?;
        Ok(self)
    }

    /// Sets the content type. `HttpError::Value` is kept where the value is no field value.
    pub fn content_type<V: TryIntoHeaderValue + Drop>(
        &mut self,
        value: V,
    ) -> Result<&mut HttpResponseBuilder, NoMemory>
        ensures same_reference { IfOk result (λ b. b.ghost_name ≡ self.entry.ghost_name) }
        ensures value { IfOk result (λ b. b.now
            ≡ put_header Placing.Replace (valued (codes "content-type") (V.value value)) self.old) }
    {
        let header = valued(self.alloc, CONTENT_TYPE, value)?;
        self.put(Placing::Replace, header)?;
        Ok(self)
    }

    /// Says that the body is this many bytes long, and is not to be sent in chunks (RFC 9112,
    /// section 7.1).
    pub fn no_chunking(&mut self, len: u64) -> Result<&mut HttpResponseBuilder, NoMemory>
        ensures same_reference { IfOk result (λ b. b.ghost_name ≡ self.entry.ghost_name) }
        ensures value { IfOk result (λ b. b.now ≡ set_no_chunking len self.old) }
    {
        let length = HeaderValue::from_u64(self.alloc, len)?;
        self.put(Placing::Replace, Ok((CONTENT_LENGTH, length)))?;
        self.mark_no_chunking();
        Ok(self)
    }

    /// Says that the body is not to be sent in chunks, unless an error is kept or the builder is
    /// spent.
    fn mark_no_chunking(&mut self)
        ensures { self.new ≡ mark_no_chunking self.old }
    {
        match self.error {
            Some(_) => {}
            None => match &mut self.response {
                Some(response) => response.head_mut().no_chunking = true,
                None => {}
            },
        }
    }

    /// Says that the connection is upgraded, and sets Upgrade (RFC 9110, section 7.8). A value that
    /// is no field value is left out without an error.
    pub fn upgrade<V: TryIntoHeaderValue + Drop>(
        &mut self,
        value: V,
    ) -> Result<&mut HttpResponseBuilder, NoMemory>
        ensures same_reference { IfOk result (λ b. b.ghost_name ≡ self.entry.ghost_name) }
        ensures value { IfOk result (λ b. b.now ≡ set_upgrade (V.value value) self.old) }
    {
        let header = valued(self.alloc, UPGRADE, value)?;
        self.put_upgrade(header)?;
        Ok(self)
    }

    /// Puts a header in place of those of its name, unless it was refused.
    fn put_unless_refused(
        &mut self,
        header: Result<(HeaderName, HeaderValue), HttpError>,
    ) -> Result<(), NoMemory>
        ensures ok { OnOk result (self.new ≡ put_unless_refused header self.old) }
        ensures err { OnErr result (self.new ≡ self.old) }
    {
        match header {
            Ok(header) => self.put(Placing::Replace, Ok(header)),
            Err(_) => Ok(()),
        }
    }

    /// Says that the connection is upgraded, unless the builder is spent.
    fn connect_upgraded(&mut self)
        ensures { self.new ≡ upgraded self.old }
    {
        match &mut self.response {
            Some(response) => response.head_mut().connection = Some(ConnectionType::Upgrade),
            None => {}
        }
    }

    /// Says that the connection is upgraded, and puts a header that was not refused, unless an
    /// error is kept or the builder is spent.
    fn put_upgrade(
        &mut self,
        header: Result<(HeaderName, HeaderValue), HttpError>,
    ) -> Result<(), NoMemory>
        ensures ok { OnOk result (self.new ≡ put_upgrade header self.old) }
        ensures err { OnErr result (self.new ≡ self.old) }
    {
        match self.error {
            Some(_) => {}
            None => {
                self.put_unless_refused(header)?;
                self.connect_upgraded();
            }
        }
        Ok(())
    }

    /// Adds Set-Cookie with the text of a cookie. `HttpError::Value` is kept where that is no field
    /// value. A cookie that `make_removal` changed makes a client forget the cookie.
    pub fn cookie(&mut self, cookie: &Cookie) -> Result<&mut HttpResponseBuilder, NoMemory>
        ensures same_reference { IfOk result (λ b. b.ghost_name ≡ self.entry.ghost_name) }
        ensures value { IfOk result (λ b.
            b.now ≡ put_header Placing.Append (cookie_header cookie.now) self.old) }
    {
        let header = cookie_header(self.alloc, cookie)?;
        self.put(Placing::Append, header)?;
        Ok(self)
    }

    /// Builds the response with this body, and the builder is spent. Where an error is kept, it
    /// returns and clears that error, and leaves the response. This allocates nothing.
    pub fn message_body<B: Drop>(&mut self, body: B) -> Result<HttpResponse<B>, Error>
        requires unspent { is_none self.old.response ≡ false }
        ensures value { Some result ≡ message_of body self.old.response self.old.error }
        ensures left { self.new ≡ after_message self.old.response self.old.error }
    {
        if let Some(error) = self.error.take() {
            return Err(Error::from(error));
        }
        match self.response.take() {
            Some(response) => Ok(response.set_body(body)),
            None => unreachable!(),
        }
    }

    /// The response with this body, or the reply to the kept error. Where none is kept, this takes
    /// no memory but what the common form of the body takes.
    pub fn body<S: Source, B: MessageBody<S>>(
        self,
        body: B,
    ) -> Result<HttpResponse<BoxBody<S>>, NoMemory>
        requires unspent { is_none self.response ≡ false }
        ensures value { IfOk result (λ reply. plain_reply (λ b. box_plain S.feed b) reply
            ≡ built_reply (B.plain body) self) }
        ensures memory { self.error ≡ None → B.needs_no_memory body → IsOk result }
    {
        let alloc = self.alloc;
        let mut builder = self;
        let built = builder.message_body(body);
        in_common_form(alloc, built)
    }

    /// The response with an empty body, or the reply to the kept error. Where none is kept, this
    /// takes no memory.
    pub fn finish<S: Source>(self) -> Result<HttpResponse<BoxBody<S>>, NoMemory>
        requires unspent { is_none self.response ≡ false }
        ensures value { IfOk result (λ reply. plain_reply (λ b. box_plain S.feed b) reply
            ≡ built_reply Plain.Empty self) }
        ensures memory { self.error ≡ None → IsOk result }
    {
        self.body(())
    }

    /// Sets the content type, unless there is one.
    fn set_default_type(&mut self, content_type: &'static str) -> Result<(), NoMemory>
        requires visible { IsTrue (is_visible_text content_type.now) }
        ensures { OnOk result (self.new ≡ default_type content_type.now self.old) }
    {
        match self.error {
            Some(_) => Ok(()),
            None => match &mut self.response {
                None => Ok(()),
                Some(response) => match put_default_type(response.headers_mut(), content_type) {
                    Ok(()) => Ok(()),
                    Err(Fail::NoMemory) => Err(NoMemory),
                    Err(Fail::Of(error)) => {
                        self.error = Some(error);
                        Ok(())
                    }
                },
            },
        }
    }

    /// The first Content-Length, where that is digits alone, up to 2^64 - 1.
    fn said_length(&self) -> Option<u64>
        ensures { result ≡ said_length self.now }
    {
        let response = self.response.as_ref()?;
        let text = first_text(response.headers(), &CONTENT_LENGTH)?;
        read_digits(text, u64::MAX)
    }

    /// The response with a body that is read from a payload, or the reply to the kept error. It is
    /// `application/octet-stream` where no content type is set. It has the length that
    /// Content-Length says, if that is a number, and is then not to be sent in chunks.
    pub fn streaming<S: Source>(
        self,
        stream: Payload<S>,
    ) -> Result<HttpResponse<BoxBody<S>>, NoMemory>
        requires unspent { is_none self.response ≡ false }
        ensures value { IfOk result (λ reply. plain_reply (λ b. box_plain S.feed b) reply
            ≡ streamed_reply (payload_feed S.feed stream).marks self) }
    {
        let stream = Box::new(self.alloc, stream)?;
        let mut builder = self;
        builder.set_default_type("application/octet-stream")?;
        match builder.said_length() {
            Some(length) => builder.sized(length, stream),
            None => builder.body(BoxBody::Stream(stream)),
        }
    }

    /// The response with a payload of this length, which is not to be sent in chunks, or the reply
    /// to the kept error.
    fn sized<S: Source>(
        self,
        length: u64,
        stream: Box<Payload<S>>,
    ) -> Result<HttpResponse<BoxBody<S>>, NoMemory>
        requires unspent { is_none self.response ≡ false }
        ensures value { IfOk result (λ reply. plain_reply (λ b. box_plain S.feed b) reply
            ≡ sized_reply length (payload_feed S.feed stream.value).marks self) }
    {
        let mut builder = self;
        builder.no_chunking(length)?;
        builder.body(BoxBody::Sized(length, stream))
    }

    /// The response with this body, or the reply to the kept error. It has this content type where
    /// none is set.
    fn typed_body<S: Source, B: MessageBody<S>>(
        self,
        content_type: &'static str,
        body: B,
    ) -> Result<HttpResponse<BoxBody<S>>, NoMemory>
        requires unspent { is_none self.response ≡ false }
        requires visible { IsTrue (is_visible_text content_type.now) }
        ensures value { IfOk result (λ reply. plain_reply (λ b. box_plain S.feed b) reply
            ≡ built_reply (B.plain body) (default_type content_type.now self)) }
    {
        let mut builder = self;
        builder.set_default_type(content_type)?;
        builder.body(body)
    }

    /// The response with a value as JSON, or the reply to the kept error. It is `application/json`
    /// where no content type is set. A value that its writer refuses, or that holds a float, gives
    /// the reply to `JsonPayloadError::Serialize`, also where an error is kept.
    pub fn json<S: Source, T: WriteJson>(
        self,
        value: &T,
    ) -> Result<HttpResponse<BoxBody<S>>, NoMemory>
        requires unspent { is_none self.response ≡ false }
        ensures value { IfOk result (λ reply. BuildsJson (T.writes value.now) self
            (plain_reply (λ b. box_plain S.feed b) reply)) }
    {
        let alloc = self.alloc;
        match write_value(alloc, value) {
            Ok(text) => self.typed_body("application/json", text),
            Err(Fail::Of(fault)) => {
                refusal_in_common_form(alloc, Error::from(JsonPayloadError::Serialize(fault)))
            }
            Err(Fail::NoMemory) => Err(NoMemory),
        }
    }

    /// The response with an empty body, or the reply to the kept error; an empty 500 where the
    /// builder is spent.
    fn whole(self) -> Result<HttpResponse<WholeBody>, NoMemory>
        ensures value { IfOk result (λ reply. reply ≡ finished_reply self) }
        ensures memory { self.error ≡ None → IsOk result }
    {
        let HttpResponseBuilder {
            alloc,
            response,
            error,
        } = self;
        if let Some(error) = error {
            return HttpResponse::from_error(alloc, Error::from(error));
        }
        match response {
            Some(response) => Ok(response.set_body(WholeBody::Empty)),
            None => Ok(HttpResponse::new(alloc, StatusCode::INTERNAL_SERVER_ERROR)),
        }
    }
}

/// The reply to an error, with its body in the common form.
fn refusal_in_common_form<S: Source>(
    alloc: Global,
    error: Error,
) -> Result<HttpResponse<BoxBody<S>>, NoMemory>
    ensures { IfOk result (λ reply. plain_reply (λ b. box_plain S.feed b) reply
        ≡ plain_reply whole_plain (error_reply error)) }
{
    HttpResponse::from_error(alloc, error)?.map_into_boxed_body(alloc)
}

/// The response, or the reply to the error, with its body in the common form.
fn in_common_form<S: Source, B: MessageBody<S>>(
    alloc: Global,
    built: Result<HttpResponse<B>, Error>,
) -> Result<HttpResponse<BoxBody<S>>, NoMemory>
    ensures value { IfOk result (λ reply. plain_reply (λ b. box_plain S.feed b) reply
        ≡ reply_of (λ body. B.plain body) built) }
    ensures memory { IsOkAnd built (λ response. B.needs_no_memory response.body) → IsOk result }
{
    match built {
        Ok(response) => response.map_into_boxed_body(alloc),
        Err(error) => refusal_in_common_form(alloc, error),
    }
}

/// Puts the content type, unless there is one.
fn put_default_type(
    headers: &mut HeaderMap<HeaderValue>,
    content_type: &'static str,
) -> Result<(), Fail<HttpError>>
    requires visible { IsTrue (is_visible_text content_type.now) }
    ensures { StepsTo (typed_headers content_type.now headers.old) headers.old result headers.new }
{
    if headers.contains_key(CONTENT_TYPE) {
        return Ok(());
    }
    let value = HeaderValue::from_static(content_type);
    place_header(headers, Placing::Replace, CONTENT_TYPE, value)
}

/// The first poll gives the response with an empty body, or the reply to the kept error, and the
/// builder is spent.
impl Poll for HttpResponseBuilder {
    ghost use Rattle.std.specs.Prelude.{◌≡◌, None, is_none};
    ghost use Rattle.std.proofs.Common.{refl};
    ghost use Rattle.web_build.specs.Builders.{finished_reply};

    type Output = HttpResponse<WholeBody>;

    ghost is_finished = { λ b. is_none b.response };

    ghost gives = { λ b n reply. (n ≡ 0) × (reply ≡ finished_reply b) };

    ghost needs_no_memory = { λ b. b.error ≡ None };

    fn finished(&self) -> bool {
        self.is_spent()
    }

    fn poll(&mut self, _alloc: Global) -> Step<HttpResponse<WholeBody>> {
        match self.take().whole() {
            Ok(response) => Step::Ready(response),
            Err(NoMemory) => Step::NoMemory,
        }
    }

    ghost some = { λ b live none. none 0 (finished_reply b) (refl, refl) };
}

/// The response with an empty body, or the reply to the kept error; an empty 500 where the builder
/// is spent.
impl<A: App> Responder<A> for HttpResponseBuilder {
    ghost use Rattle.std.specs.Prelude.{◌≡◌, None};
    ghost use Rattle.web_reply.specs.ResponseBodies.{whole_plain};
    ghost use Rattle.web_reply.specs.Replies.{plain_reply};
    ghost use Rattle.web_build.specs.Builders.{finished_reply};

    type Body = WholeBody;

    ghost responds = { λ b q r. r ≡ plain_reply whole_plain (finished_reply b) };

    ghost needs_no_memory = { λ b. b.error ≡ None };

    fn respond_to(
        self,
        _alloc: Global,
        _req: &HttpRequest<A>,
    ) -> Result<HttpResponse<WholeBody>, NoMemory> {
        self.whole()
    }
}
