//! Pages.
ghost use Rattle.std.specs.Prelude.{◌≡◌};

use crate::one_header::with_one_header;
use bytes::Bytes;
use http::StatusCode;
use http_header::{CONTENT_TYPE, HeaderValue};
use std::alloc::Global;
use std::marker::Model;
use web_reply::{HttpResponse, Responder, WholeBody};
use web_request::{App, HttpRequest};
use web_texts::{Duplicate, NoMemory, Text};

/// A page in HTML: 200 with `text/html; charset=utf-8`. Contracts see its text.
#[derive(Debug, Drop, PartialEq, Eq, Hash)]
pub struct Html(Text);

impl Model for Html {
    ghost use Rattle.std.specs.Prelude.{List, ℕ};

    ghost Value = { List ℕ };

    ghost view = { λ page. page.0 };

    ghost inverse = { λ text. record { 0 = text } };
}

impl Html {
    /// The page of this text.
    pub fn new(html: Text) -> Html
        ensures { result ≡ html }
    {
        Html(html)
    }
}

impl Duplicate for Html {
    fn duplicate(&self, alloc: Global) -> Result<Html, NoMemory> {
        Ok(Html(self.0.duplicate(alloc)?))
    }
}

/// 200 with the page, uncopied, as `text/html; charset=utf-8`.
impl<A: App> Responder<A> for Html {
    ghost use Rattle.std.specs.Prelude.{◌≡◌};
    ghost use Rattle.web_reply.specs.ResponseBodies.{whole_plain};
    ghost use Rattle.web_reply.specs.Replies.{plain_reply};
    ghost use Rattle.web_build.specs.RedirectReplies.{html_reply};

    type Body = WholeBody;

    ghost responds = { λ v q r. r ≡ plain_reply whole_plain (html_reply v) };

    fn respond_to(
        self,
        alloc: Global,
        _req: &HttpRequest<A>,
    ) -> Result<HttpResponse<WholeBody>, NoMemory> {
        let body = WholeBody::Bytes(Bytes::from_string(self.0.into_string())?);
        let html = HeaderValue::from_static("text/html; charset=utf-8");
        with_one_header(alloc, StatusCode::OK, body, CONTENT_TYPE, html)
    }
}
