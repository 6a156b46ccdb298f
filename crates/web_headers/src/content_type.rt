//! Content-Type.
ghost use Rattle.std.specs.Prelude.{◌≡◌, IfOk, Some, true, codes};
ghost use Rattle.std.specs.Option.{is_some};
ghost use Rattle.web_texts.specs.MediaTypes.{media_type_of};

use crate::typed_header::Header;
use crate::value_readers::from_one_value;
use http_header::{CONTENT_TYPE, HeaderMap, HeaderName, HeaderValue};
use std::alloc::Global;
use std::fmt;
use std::ops::{Deref, DerefMut};
use web_texts::{
    APPLICATION_JSON, APPLICATION_OCTET_STREAM, APPLICATION_WWW_FORM_URLENCODED, Duplicate, Fail,
    InvalidHeaderValue, Mime, MimeFault, NoMemory, ParseError, TEXT_HTML_UTF_8, TEXT_PLAIN_UTF_8,
    TEXT_XML, TryIntoHeaderValue, printed_value,
};

/// Content-Type (RFC 9110, section 8.3): the media type of content.
#[derive(Debug, Drop, PartialEq, Eq)]
pub struct ContentType(pub Mime);

/// The media type of a text that is one.
pub(crate) fn media_type(alloc: Global, text: &str) -> Result<Mime, NoMemory>
    requires { is_some (media_type_of text.now) ≡ true }
    ensures { IfOk result (λ made. media_type_of text.now ≡ Some made) }
{
    match Mime::parse(alloc, text) {
        Ok(mime) => Ok(mime),
        Err(Fail::NoMemory) => Err(NoMemory),
        Err(Fail::Of(MimeFault)) => unreachable!(),
    }
}

impl ContentType {
    /// `application/json`
    pub fn json(alloc: Global) -> Result<ContentType, NoMemory>
        ensures { IfOk result (λ made. media_type_of (codes "application/json") ≡ Some made.0) }
    {
        Ok(ContentType(media_type(alloc, APPLICATION_JSON)?))
    }

    /// `text/plain; charset=utf-8`
    pub fn plaintext(alloc: Global) -> Result<ContentType, NoMemory>
        ensures { IfOk result (λ made.
            media_type_of (codes "text/plain; charset=utf-8") ≡ Some made.0) }
    {
        Ok(ContentType(media_type(alloc, TEXT_PLAIN_UTF_8)?))
    }

    /// `text/html; charset=utf-8`
    pub fn html(alloc: Global) -> Result<ContentType, NoMemory>
        ensures { IfOk result (λ made.
            media_type_of (codes "text/html; charset=utf-8") ≡ Some made.0) }
    {
        Ok(ContentType(media_type(alloc, TEXT_HTML_UTF_8)?))
    }

    /// `text/xml`
    pub fn xml(alloc: Global) -> Result<ContentType, NoMemory>
        ensures { IfOk result (λ made. media_type_of (codes "text/xml") ≡ Some made.0) }
    {
        Ok(ContentType(media_type(alloc, TEXT_XML)?))
    }

    /// `application/x-www-form-urlencoded`
    pub fn form_url_encoded(alloc: Global) -> Result<ContentType, NoMemory>
        ensures { IfOk result (λ made.
            media_type_of (codes "application/x-www-form-urlencoded") ≡ Some made.0) }
    {
        Ok(ContentType(media_type(alloc, APPLICATION_WWW_FORM_URLENCODED)?))
    }

    /// `application/octet-stream`
    pub fn octet_stream(alloc: Global) -> Result<ContentType, NoMemory>
        ensures { IfOk result (λ made.
            media_type_of (codes "application/octet-stream") ≡ Some made.0) }
    {
        Ok(ContentType(media_type(alloc, APPLICATION_OCTET_STREAM)?))
    }
}

impl Header for ContentType {
    ghost use Rattle.std.specs.Prelude.{◌≡◌, codes};
    ghost use Rattle.std.specs.Option.{option_map};
    ghost use Rattle.web_headers.specs.ValueHeaders.{content_type_of};

    ghost says = { λ values said.
        option_map (λ header. header.0) said ≡ content_type_of values };

    ghost called = { codes "content-type" };

    fn name() -> HeaderName {
        CONTENT_TYPE
    }

    fn parse(alloc: Global, headers: &HeaderMap<HeaderValue>) -> Result<Self, Fail<ParseError>> {
        Ok(ContentType(from_one_value(alloc, headers, &CONTENT_TYPE)?))
    }
}

impl fmt::Display for ContentType {
    ghost use Rattle.std.specs.Prelude.{Some};
    ghost use Rattle.web_texts.specs.MediaTypeTexts.{media_type_text};

    ghost output = { λ header. Some (media_type_text header.0) };

    fn fmt<W: fmt::Write>(&self, f: &mut fmt::Formatter<W>) -> fmt::Result {
        write!(f, "{}", self.0)
    }
}

impl TryIntoHeaderValue for ContentType {
    ghost use Rattle.http_header.specs.FieldValue.{plain_value};
    ghost use Rattle.web_texts.specs.MediaTypeTexts.{media_type_text};

    ghost value = { λ header. plain_value (media_type_text header.0) };

    fn try_into_value(self, alloc: Global) -> Result<HeaderValue, Fail<InvalidHeaderValue>> {
        printed_value(alloc, &self)
    }
}

impl Duplicate for ContentType {
    fn duplicate(&self, alloc: Global) -> Result<ContentType, NoMemory> {
        Ok(ContentType(self.0.duplicate(alloc)?))
    }
}

impl Deref for ContentType {
    ghost use Rattle.std.specs.Prelude.{◌≡◌};

    type Target = Mime;

    ghost deref_gives = { λ header mime. mime ≡ header.0 };

    fn deref(&self) -> &Mime {
        &self.0
    }
}

impl DerefMut for ContentType {
    ghost use Rattle.std.specs.Prelude.{◌≡◌};
    ghost use Rattle.std.specs.Borrow.{Lends, sem};
    ghost use Rattle.web_headers.specs.contracts.content_type.ContentType.{the_row};
    ghost use Rattle.web_texts.specs.contracts.media.media_type.Mime as mime;

    ghost deref_mut_gives = { λ header mime. mime ≡ header.0 };

    fn deref_mut(&mut self) -> &mut Mime
        ensures* writes_back { sem 𝓛 (Lends the_row mime.the_row
            self.entry result (λ x. record { 0 = x })) }
        ensures shows { result.now ≡ self.old.0 }
    {
        &mut self.0
    }
}
