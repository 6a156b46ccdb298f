//! A header on every reply.
use crate::wrap::Change;
use http_header::{HeaderName, HeaderValue};
use std::alloc::Global;
use web_reply::header_setting::{Placing, place_header};
use web_reply::{BoxBody, HttpResponse};
use web_request::{App, HttpRequest};
use web_texts::{Fail, NoMemory};

/// Puts a header in place of those of its name. A reply whose headers have no room for it stays as
/// it is.
#[derive(Drop)]
pub struct SetHeader {
    pub name: HeaderName,
    pub value: HeaderValue,
}

impl<A: App> Change<A> for SetHeader {
    ghost use Rattle.std.specs.Prelude.{◌≡◌};
    ghost use Rattle.web_routing.specs.ReplyHeaders.{with_header};

    ghost changes = { λ c q s r. r ≡ with_header c.name c.value s };

    fn change(
        &self,
        _alloc: Global,
        _request: &HttpRequest<A>,
        reply: &mut HttpResponse<BoxBody<A::Source>>,
    ) -> Result<(), NoMemory> {
        let name = self.name.clone()?;
        let value = self.value.clone()?;
        match place_header(reply.headers_mut(), Placing::Replace, name, value) {
            Ok(()) => Ok(()),
            Err(Fail::Of(_)) => Ok(()),
            Err(Fail::NoMemory) => Err(NoMemory),
        }
    }
}
