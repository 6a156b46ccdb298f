//! A request with its payload.
ghost use Rattle.std.specs.Prelude.{◌≡◌, ◌⊎◌, IfOk, IsOk, OnErr, OnOk, codes, false, option_copied};
ghost use Rattle.std.specs.Borrow.{Lends, LendsBoth, LendsSoOk, sem};
ghost use Rattle.std.specs.contracts.option.Option.{the_row as option_row};
ghost use Rattle.http_header.specs.contracts.map.HeaderMap.{the_row as map_row};
ghost use Rattle.http_header.specs.contracts.value.HeaderValue.{the_row as value_row};
ghost use Rattle.web_request_log.specs.LogEntries.{log_text};
ghost use Rattle.web_request.specs.Descriptions.{logged};
ghost use Rattle.web_request.specs.Head.{head_view};
ghost use Rattle.web_request.specs.contracts.head.RequestHead.{the_row as head_row};
ghost use Rattle.web_request.specs.contracts.request.HttpRequest.{the_row as request_row};
ghost use Rattle.web_body.specs.Payload.{payload_feed};
ghost use Rattle.web_body.specs.contracts.payload.Payload.{the_row as payload_row};
ghost use Rattle.web_reply.specs.Replies.{error_reply};
ghost use Rattle.web_extract.specs.Extracts.{Extracts};
ghost use Rattle.web_service.specs.Services.{with_data, with_head, with_header_fields, with_layer};
ghost use Rattle.web_service.specs.contracts.service_request.ServiceRequest.{the_row};

use crate::service_response::ServiceResponse;
use http_header::{HeaderMap, HeaderValue};
use std::alloc::Global;
use std::marker::Model;
use std::rc::Rc;
use web_body::{Payload, TakePayload};
use web_extract::FromRequest;
use web_reply::{Error, HttpResponse, WholeBody};
use web_request::{App, HttpMessage, HttpRequest, NoMemory, RequestHead, Text};

/// A request with its payload, as middleware gets it before a handler does.
///
/// Contracts see its two parts. Each call is that of the part which it names; of the others nothing
/// changes.
#[derive(Drop)]
pub struct ServiceRequest<A: App> {
    pub(crate) request: HttpRequest<A>,
    payload: Payload<A::Source>,
}

impl<A: App> Model for ServiceRequest<A> {
    ghost use Rattle.web_service.specs.Services.{Service};

    ghost Value = { Service A.Layer A.Local A.Conn A.Source };

    ghost view = { λ s. record { request = s.request; payload = s.payload } };
}

impl<A: App> ServiceRequest<A> {
    /// The request with this payload.
    pub fn from_parts(req: HttpRequest<A>, payload: Payload<A::Source>) -> ServiceRequest<A>
        ensures { result ≡ record { request = req; payload = payload } }
    {
        ServiceRequest {
            request: req,
            payload,
        }
    }

    /// The request without a payload.
    pub fn from_request(req: HttpRequest<A>) -> ServiceRequest<A>
        ensures { result ≡ record { request = req; payload = Payload.None } }
    {
        ServiceRequest::from_parts(req, Payload::None)
    }

    /// The request and the payload.
    pub fn into_parts(self) -> (HttpRequest<A>, Payload<A::Source>)
        ensures request { result.0 ≡ self.request }
        ensures payload { result.1 ≡ self.payload }
    {
        let ServiceRequest { request, payload } = self;
        (request, payload)
    }

    /// The request and the payload.
    pub fn parts(&self) -> (&HttpRequest<A>, &Payload<A::Source>)
        ensures request { result.0.now ≡ self.now.request }
        ensures payload { result.1.now ≡ self.now.payload }
    {
        (&self.request, &self.payload)
    }

    /// The request and the payload, for writing.
    pub fn parts_mut(&mut self) -> (&mut HttpRequest<A>, &mut Payload<A::Source>)
        ensures* writes_back { sem 𝓛 (LendsBoth
            (the_row A.row A.Layer.row A.Local.row A.Conn.row A.Source.row
            A.Layer.AppLayer A.Source.Source)
            (request_row A.row A.Layer.row A.Local.row A.Conn.row A.Source.row
            A.Layer.AppLayer A.Source.Source)
            (payload_row A.Source.row)
            self.entry result
            (λ request payload. record { request = request; payload = payload })) }
        ensures request { result.0.now ≡ self.old.request }
        ensures payload { result.1.now ≡ self.old.payload }
    {
        (&mut self.request, &mut self.payload)
    }

    /// The request.
    pub fn request(&self) -> &HttpRequest<A>
        ensures { result.now ≡ self.now.request }
    {
        &self.request
    }

    /// Begins to extract an argument from the request and the payload, which is taken or left as
    /// the argument says. Returns `NoMemory` where allocation failed.
    pub fn extract<T: FromRequest<A>>(&mut self, alloc: Global) -> Result<T::Future, NoMemory>
        ensures fresh { IfOk result (λ f. T.Future.is_finished f ≡ false) }
        ensures extracts { IfOk result (λ f. Extracts
            (T.means self.old.request.request) (T.Future.gives f)
            (payload_feed A.Source.feed self.old.payload).marks
            (payload_feed A.Source.feed self.new.payload).marks) }
        ensures payload { (self.new.payload ≡ self.old.payload)
            ⊎ (self.new.payload ≡ Payload.None) }
        ensures request { self.new.request ≡ self.old.request }
        ensures memory { T.needs_no_memory self.old.request.request → IsOk result }
    {
        T::from_request(alloc, &self.request, &mut self.payload)
    }

    /// The response to the request. The payload is dropped.
    pub fn into_response<B>(self, res: HttpResponse<B>) -> ServiceResponse<A, B>
        ensures { result ≡ record { request = self.request; response = res } }
    {
        ServiceResponse::new(self.request, res)
    }

    /// The response to the request that the error has. The payload is dropped. Returns `NoMemory`
    /// where allocation failed.
    pub fn error_response(
        self,
        alloc: Global,
        err: Error,
    ) -> Result<ServiceResponse<A, WholeBody>, NoMemory>
        ensures { IfOk result (λ answered. answered
            ≡ record { request = self.request; response = error_reply err }) }
    {
        ServiceResponse::from_err(alloc, err, self.request)
    }

    /// The data of the request.
    pub fn extensions(&self) -> Option<&A::Local>
        ensures { option_copied result ≡ self.now.request.request.local }
    {
        self.request.extensions()
    }

    /// The data of the request, for writing.
    pub fn extensions_mut(&mut self) -> &mut Option<A::Local>
        ensures* writes_back { sem 𝓛 (Lends
            (the_row A.row A.Layer.row A.Local.row A.Conn.row A.Source.row
            A.Layer.AppLayer A.Source.Source)
            (option_row A.Local.row) self.entry result
            (λ local. record self.old { request = with_data self.old.request local })) }
        ensures shows { result.now ≡ self.old.request.request.local }
    {
        self.request.extensions_mut()
    }

    /// The head, for writing. One that a duplicate shares is copied first, so that the duplicate
    /// keeps it. Returns `NoMemory` where allocation failed; the request is then as before.
    pub fn head_mut(&mut self) -> Result<&mut RequestHead, NoMemory>
        ensures* writes_back { sem 𝓛 (LendsSoOk
            (the_row A.row A.Layer.row A.Local.row A.Conn.row A.Source.row
            A.Layer.AppLayer A.Source.Source)
            head_row self.entry result
            (λ new head. new ≡ record self.old {
              request = with_head self.old.request (head_view head);
            })
            (λ new. new ≡ self.old)) }
        ensures shows { IfOk result (λ head. head_view head.now ≡ self.old.request.request.head) }
    {
        self.request.head_mut()
    }

    /// The header fields, for writing. A head that a duplicate shares is copied first, so that the
    /// duplicate keeps it. Returns `NoMemory` where allocation failed; the request is then as
    /// before.
    pub fn headers_mut(&mut self) -> Result<&mut HeaderMap<HeaderValue>, NoMemory>
        ensures* writes_back { sem 𝓛 (LendsSoOk
            (the_row A.row A.Layer.row A.Local.row A.Conn.row A.Source.row
            A.Layer.AppLayer A.Source.Source)
            (map_row value_row) self.entry result
            (λ new headers. new ≡ record self.old {
              request = with_header_fields self.old.request headers;
            })
            (λ new. new ≡ self.old)) }
        ensures shows { IfOk result (λ headers.
            headers.now ≡ self.old.request.request.head.headers) }
    {
        match self.request.head_mut() {
            Ok(head) => Ok(&mut head.headers),
            Err(e) => Err(e),
        }
    }

    /// Puts another payload in place of the one that is there.
    pub fn set_payload(&mut self, payload: Payload<A::Source>)
        ensures { self.new ≡ record self.old { payload = payload } }
    {
        self.payload = payload;
    }

    /// Adds a layer as the last one, so that it decides first. It must be ready: its closures may
    /// be called. Returns `NoMemory` where allocation failed; the request is then as before.
    pub fn add_data_container(&mut self, layer: Rc<A::Layer>) -> Result<(), NoMemory>
        requires ready { A.Layer.ready layer.value }
        ensures ok { OnOk result (self.new ≡ record self.old {
          request = with_layer self.old.request layer.value;
        }) }
        ensures err { OnErr result (self.new ≡ self.old) }
    {
        self.request.add_layer(layer)
    }

    /// The text of the request for logs, by `web_request_log::describe`: without the values of
    /// Authorization, Proxy-Authorization and Cookie. Returns `NoMemory` where allocation failed.
    pub fn describe(&self, alloc: Global) -> Result<Text, NoMemory>
        ensures { IfOk result (λ text.
            text ≡ log_text (logged (codes "ServiceRequest") self.now.request.request)) }
    {
        self.request.describe_as(alloc, "ServiceRequest")
    }
}

impl<A: App> HttpMessage for ServiceRequest<A> {
    ghost fields = { λ service. service.request.request.head.headers };

    fn headers(&self) -> &HeaderMap<HeaderValue> {
        self.request.headers()
    }
}

impl<A: App> TakePayload for ServiceRequest<A> {
    ghost use Rattle.web_body.specs.declared.payload.Payload.TheVariants as held;

    type Source = A::Source;

    ghost payload = { λ service. service.payload };

    ghost without_payload = { λ service. record service { payload = held.None } };

    fn take_payload(&mut self) -> Payload<A::Source> {
        self.payload.take()
    }
}
