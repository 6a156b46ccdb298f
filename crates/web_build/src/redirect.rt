//! Redirects.
ghost use Rattle.std.specs.Prelude.{◌≡◌, IfOk, codes};

use crate::one_header::with_one_header;
use http::StatusCode;
use http_header::LOCATION;
use std::alloc::Global;
use std::marker::Model;
use web_reply::header_setting::valued;
use web_reply::{HttpResponse, Responder, WholeBody};
use web_request::{App, HttpRequest};
use web_texts::{Duplicate, NoMemory, Text};

/// A redirect to a target (RFC 9110, section 15.4), with the status 307 unless another is set.
#[derive(Debug, Drop)]
pub struct Redirect {
    from: Text,
    to: Text,
    status: StatusCode,
}

impl Model for Redirect {
    ghost use Rattle.web_build.specs.RedirectReplies.{Redirection};

    ghost Value = { Redirection };

    ghost view = { λ r. record { from = r.from; to = r.to; status = r.status } };
}

impl Redirect {
    /// A redirect from a path to a target. The path is for a router; the response is the same for
    /// each path.
    pub fn new(from: Text, to: Text) -> Redirect
        ensures { result ≡ record { from = from; to = to; status = 307 } }
    {
        Redirect {
            from,
            to,
            status: StatusCode::TEMPORARY_REDIRECT,
        }
    }

    /// A redirect to a target, from the path `/`.
    pub fn to(alloc: Global, to: Text) -> Result<Redirect, NoMemory>
        ensures { IfOk result (λ r. r ≡ record { from = codes "/"; to = to; status = 307 }) }
    {
        Ok(Redirect::new(Text::of(alloc, "/")?, to))
    }

    /// The redirect with the status 308: clients may remember it.
    pub fn permanent(self) -> Redirect
        ensures { result ≡ record self { status = 308 } }
    {
        self.using_status_code(StatusCode::PERMANENT_REDIRECT)
    }

    /// The redirect with the status 307: clients ask again the next time.
    pub fn temporary(self) -> Redirect
        ensures { result ≡ record self { status = 307 } }
    {
        self.using_status_code(StatusCode::TEMPORARY_REDIRECT)
    }

    /// The redirect with the status 303: clients ask for the target with `GET`.
    pub fn see_other(self) -> Redirect
        ensures { result ≡ record self { status = 303 } }
    {
        self.using_status_code(StatusCode::SEE_OTHER)
    }

    /// The redirect with this status.
    pub fn using_status_code(self, status: StatusCode) -> Redirect
        ensures { result ≡ record self { status = status } }
    {
        Redirect {
            from: self.from,
            to: self.to,
            status,
        }
    }
}

impl Duplicate for Redirect {
    fn duplicate(&self, alloc: Global) -> Result<Redirect, NoMemory> {
        let from = self.from.duplicate(alloc)?;
        Ok(Redirect {
            from,
            to: self.to.duplicate(alloc)?,
            status: self.status,
        })
    }
}

/// An empty response with the status, and with the target as Location where it may stand in a
/// header.
impl<A: App> Responder<A> for Redirect {
    ghost use Rattle.std.specs.Prelude.{◌≡◌};
    ghost use Rattle.web_reply.specs.ResponseBodies.{whole_plain};
    ghost use Rattle.web_reply.specs.Replies.{plain_reply};
    ghost use Rattle.web_build.specs.RedirectReplies.{redirect_reply};

    type Body = WholeBody;

    ghost responds = { λ v q r. r ≡ plain_reply whole_plain (redirect_reply v) };

    fn respond_to(
        self,
        alloc: Global,
        _req: &HttpRequest<A>,
    ) -> Result<HttpResponse<WholeBody>, NoMemory> {
        match valued(alloc, LOCATION, self.to)? {
            Ok((name, target)) => {
                with_one_header(alloc, self.status, WholeBody::Empty, name, target)
            }
            Err(_) => Ok(HttpResponse::new(alloc, self.status)),
        }
    }
}
