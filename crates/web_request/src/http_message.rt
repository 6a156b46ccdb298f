//! Messages of HTTP.
ghost use Rattle.std.specs.Prelude.{◌≡◌, None, Ok};
ghost use Rattle.http_header.specs.FieldValue.{FieldValue};
ghost use Rattle.http_header.specs.HeaderMap.{Entries};
ghost use Rattle.web_request.specs.MessageFields.{content_type_of, encoding_of, is_chunked_of};
ghost use Rattle.web_request.specs.MessageFields.{first_content_type, mime_type_of};
ghost use Rattle.web_texts.specs.Returns.{Returns};

use crate::app::App;
use crate::head::RequestHead;
use crate::message_fields::{chunked_in, content_type_in, encoding_in, mime_type_in};
use crate::request::HttpRequest;
use http_header::{HeaderMap, HeaderValue};
use std::alloc::Global;
use web_texts::{ContentTypeError, Fail, Mime, ParseError};

/// What has header fields, which say how its body is to be read.
///
/// An implementation gives the fields alone. Of a field with several values the first one counts.
/// Header text is visible ASCII, spaces and tabs.
pub trait HttpMessage {
    /// The header fields.
    ghost fields: { Self → Entries FieldValue };

    /// The header fields.
    fn headers(&self) -> &HeaderMap<HeaderValue>
        ensures { result.now ≡ fields self.now };

    /// Content-Type (RFC 9110, section 8.3) without its parameters: up to the first `;`, without
    /// blanks at the ends. Empty where there is none, or where it is no header text. It need not be
    /// a media type.
    fn content_type(&self) -> &str
        ensures { result.now ≡ content_type_of (fields self.now) }
    {
        content_type_in(self.headers())
    }

    /// The media type that Content-Type names, or `None` where there is no Content-Type. Returns
    /// `ContentTypeError::ParseError` where the value is no media type; blanks at its ends are not
    /// taken off. Without a Content-Type it takes no memory.
    fn mime_type(&self, alloc: Global) -> Result<Option<Mime>, Fail<ContentTypeError>>
        ensures value { Returns result (mime_type_of (fields self.now)) }
        ensures untyped { first_content_type (fields self.now) ≡ None → result ≡ Ok None }
    {
        mime_type_in(alloc, self.headers())
    }

    /// Whether the body is UTF-8: `Ok` where there is no Content-Type, where it has no charset, and
    /// where that is `utf-8` or `utf8` in any case. Returns `ContentTypeError::ParseError` as
    /// `mime_type` does, and `ContentTypeError::UnknownEncoding` at any other charset. Without a
    /// Content-Type it takes no memory.
    fn encoding(&self, alloc: Global) -> Result<(), Fail<ContentTypeError>>
        ensures value { Returns result (encoding_of (fields self.now)) }
        ensures untyped { first_content_type (fields self.now) ≡ None → result ≡ Ok tt }
    {
        encoding_in(alloc, self.headers())
    }

    /// Whether Transfer-Encoding (RFC 9112, section 6.1) has the word `chunked`, in any case.
    /// Returns `ParseError::Header` where the value is no header text.
    fn chunked(&self) -> Result<bool, ParseError>
        ensures { result ≡ is_chunked_of (fields self.now) }
    {
        chunked_in(self.headers())
    }
}

impl HttpMessage for RequestHead {
    ghost fields = { λ head. head.headers };

    fn headers(&self) -> &HeaderMap<HeaderValue> {
        &self.headers
    }
}

impl<A: App> HttpMessage for HttpRequest<A> {
    ghost fields = { λ request. request.request.head.headers };

    fn headers(&self) -> &HeaderMap<HeaderValue> {
        HttpRequest::headers(self)
    }
}
