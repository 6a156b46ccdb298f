//! A response with the request that it responds to.
ghost use Rattle.std.specs.Prelude.{◌≡◌, IfOk, IsOk};
ghost use Rattle.std.specs.Borrow.{Lends, sem};
ghost use Rattle.http_header.specs.contracts.map.HeaderMap.{the_row as map_row};
ghost use Rattle.http_header.specs.contracts.value.HeaderValue.{the_row as value_row};
ghost use Rattle.web_reply.specs.BodyMaps.{MapsBody};
ghost use Rattle.web_reply.specs.Replies.{error_reply, plain_reply, with_body};
ghost use Rattle.web_reply.specs.ResponseBodies.{box_plain};
ghost use Rattle.web_reply.specs.contracts.response.HttpResponse.{the_row as response_row};
ghost use Rattle.web_service.specs.contracts.service_response.ServiceResponse.{the_row};

use http::StatusCode;
use http_header::{HeaderMap, HeaderValue};
use std::alloc::Global;
use std::marker::Model;
use web_reply::{BoxBody, EitherBody, Error, HttpResponse, MessageBody, ResponseHead, WholeBody};
use web_request::{App, HttpRequest, NoMemory};

/// A response with the request that it responds to, as middleware gets it after a handler returned.
///
/// Contracts see its two parts. Each call is that of the response; the request stays.
#[derive(Drop)]
pub struct ServiceResponse<A: App, B> {
    request: HttpRequest<A>,
    response: HttpResponse<B>,
}

impl<A: App, B> Model for ServiceResponse<A, B> {
    ghost use Rattle.web_service.specs.Services.{Answered};

    ghost Value = { Answered A.Layer A.Local A.Conn B };

    ghost view = { λ s. record { request = s.request; response = s.response } };
}

impl<A: App> ServiceResponse<A, WholeBody> {
    /// The response that an error has. Returns `NoMemory` where allocation failed.
    pub fn from_err(
        alloc: Global,
        err: Error,
        request: HttpRequest<A>,
    ) -> Result<ServiceResponse<A, WholeBody>, NoMemory>
        ensures { IfOk result (λ answered. answered
            ≡ record { request = request; response = error_reply err }) }
    {
        let response = HttpResponse::from_error(alloc, err)?;
        Ok(ServiceResponse::new(request, response))
    }
}

impl<A: App, B> ServiceResponse<A, B> {
    /// A response to this request.
    pub fn new(request: HttpRequest<A>, response: HttpResponse<B>) -> ServiceResponse<A, B>
        ensures { result ≡ record { request = request; response = response } }
    {
        ServiceResponse { request, response }
    }

    /// The response to the same request that an error has, in place of this one. Returns `NoMemory`
    /// where allocation failed.
    pub fn error_response(
        self,
        alloc: Global,
        err: Error,
    ) -> Result<ServiceResponse<A, WholeBody>, NoMemory>
    where
        B: Drop,
        ensures { IfOk result (λ answered. answered
            ≡ record { request = self.request; response = error_reply err }) }
    {
        ServiceResponse::from_err(alloc, err, self.request)
    }

    /// Another response to the same request.
    pub fn into_response<B1>(self, response: HttpResponse<B1>) -> ServiceResponse<A, B1>
    where
        B: Drop,
        ensures { result ≡ record { request = self.request; response = response } }
    {
        ServiceResponse::new(self.request, response)
    }

    /// The request.
    pub fn request(&self) -> &HttpRequest<A>
        ensures { result.now ≡ self.now.request }
    {
        &self.request
    }

    /// The response.
    pub fn response(&self) -> &HttpResponse<B>
        ensures { result.now ≡ self.now.response }
    {
        &self.response
    }

    /// The response, for writing.
    pub fn response_mut(&mut self) -> &mut HttpResponse<B>
        ensures* writes_back { sem 𝓛 (Lends
            (the_row A.row B.row A.Layer.row A.Local.row A.Conn.row A.Source.row
            A.Layer.AppLayer A.Source.Source)
            (response_row B.row) self.entry result
            (λ response. record self.old { response = response })) }
        ensures shows { result.now ≡ self.old.response }
    {
        &mut self.response
    }

    /// The status of the response.
    pub fn status(&self) -> StatusCode
        ensures { result ≡ self.now.response.head.status }
    {
        self.response.status()
    }

    /// The header fields of the response.
    pub fn headers(&self) -> &HeaderMap<HeaderValue>
        ensures { result.now ≡ self.now.response.head.headers }
    {
        self.response.headers()
    }

    /// The header fields of the response, for writing.
    pub fn headers_mut(&mut self) -> &mut HeaderMap<HeaderValue>
        ensures* writes_back { sem 𝓛 (Lends
            (the_row A.row B.row A.Layer.row A.Local.row A.Conn.row A.Source.row
            A.Layer.AppLayer A.Source.Source)
            (map_row value_row) self.entry result
            (λ headers. record self.old {
              response = record self.old.response {
                head = record self.old.response.head { headers = headers };
              };
            })) }
        ensures shows { result.now ≡ self.old.response.head.headers }
    {
        self.response.headers_mut()
    }

    /// The request and the response.
    pub fn into_parts(self) -> (HttpRequest<A>, HttpResponse<B>)
        ensures request { result.0 ≡ self.request }
        ensures response { result.1 ≡ self.response }
    {
        let ServiceResponse { request, response } = self;
        (request, response)
    }

    /// Passes the head and the body of the response to `f`. The result has the body that `f`
    /// returns, and the head as `f` leaves it.
    pub fn map_body<F: FnOnce(&mut ResponseHead, B) -> B2, B2>(self, f: F) -> ServiceResponse<A, B2>
        requires callable { F.IsAlwaysCallable f }
        ensures request { result.request ≡ self.request }
        ensures parts { MapsBody F.FnOnce f self.response.head self.response.body
            result.response.head result.response.body }
        ensures error { result.response.error ≡ self.response.error }
    {
        let (request, response) = self.into_parts();
        ServiceResponse::new(request, response.map_body(f))
    }

    /// The same response with its body as `EitherBody::Left`.
    pub fn map_into_left_body<R>(self) -> ServiceResponse<A, EitherBody<B, R>>
        ensures { result ≡ record {
          request = self.request;
          response = with_body (EitherBody.Left self.response.body) self.response;
        } }
    {
        let (request, response) = self.into_parts();
        ServiceResponse::new(request, response.map_into_left_body())
    }

    /// The same response with its body as `EitherBody::Right`.
    pub fn map_into_right_body<L>(self) -> ServiceResponse<A, EitherBody<L, B>>
        ensures { result ≡ record {
          request = self.request;
          response = with_body (EitherBody.Right self.response.body) self.response;
        } }
    {
        let (request, response) = self.into_parts();
        ServiceResponse::new(request, response.map_into_right_body())
    }

    /// The same response with its body in the common form. Returns `NoMemory` where allocation
    /// failed.
    pub fn map_into_boxed_body(
        self,
        alloc: Global,
    ) -> Result<ServiceResponse<A, BoxBody<A::Source>>, NoMemory>
    where
        B: MessageBody<A::Source>,
        ensures request { IfOk result (λ boxed. boxed.request ≡ self.request) }
        ensures value { IfOk result (λ boxed.
            plain_reply (λ b. box_plain A.Source.feed b) boxed.response
            ≡ plain_reply B.plain self.response) }
        ensures memory { B.needs_no_memory self.response.body → IsOk result }
    {
        let (request, response) = self.into_parts();
        let response = response.map_into_boxed_body(alloc)?;
        Ok(ServiceResponse::new(request, response))
    }

    /// The body of the response.
    pub fn into_body(self) -> B
        ensures { result ≡ self.response.body }
    {
        self.response.into_body()
    }
}

impl<A: App, B> From<ServiceResponse<A, B>> for HttpResponse<B> {
    ghost from_gives = { λ service response. response ≡ service.response };

    fn from(service: ServiceResponse<A, B>) -> HttpResponse<B> {
        service.response
    }
}
