//! What an application uses of these libraries, under one name.
//!
//! What most handlers name stands here. The rest stands in the module of its subject, which is a
//! library of its own: `cookie`, `header`, `headers`, `multipart` and so on.
#![tactic(auto)]

mod endpoints;
mod errors_as_json;
mod status_error;

pub use bytes::Bytes;
pub use endpoints::{delete, get, handler, patch, post, put};
pub use errors_as_json::ErrorsAsJson;
pub use http::{Method, StatusCode, Version};
pub use http_header as header;
pub use http_uri::Uri;
pub use httpdate;
pub use status_error::{StatusError, replied};
pub use web_body as body;
pub use web_body::{Marks, Payload};
pub use web_build as build;
pub use web_build::{Html, HttpResponseBuilder, Redirect};
pub use web_codec as codec;
pub use web_codec::Typed;
pub use web_cookies as cookie;
pub use web_decoders as decoders;
pub use web_docs as documents;
pub use web_entities as entities;
pub use web_extract as extract;
pub use web_extract::{Capped, FromRequest, LayerConfigs, Ready};
pub use web_extract_body::{Either, Form, Json};
pub use web_extract_head::{Header, Path, Query};
pub use web_headers as headers;
pub use web_http1 as http1;
pub use web_multipart as multipart;
pub use web_negotiate as negotiate;
pub use web_reply as reply;
pub use web_reply::{BoxBody, Error, HttpResponse, Responder};
pub use web_request as request;
pub use web_request::{
    App, AppConfig, AppLayer, Data, HttpMessage, HttpRequest, NoData, PlainApp, ReqData,
    RequestHead,
};
pub use web_routing as routing;
pub use web_routing::{
    Any, Both, Endpoint, HandlerService, Immediate, MethodIs, MethodPattern, PathIs, Route, Router,
    Scope, Service, SetHeader, Whole, Wrap, serve_to_end,
};
pub use web_status as status;
pub use web_stdio as stdio;
pub use web_stdio::{ServeSettings, serve};
pub use web_testing as testing;
pub use web_texts as text;
pub use web_texts::{Fail, Items, NoMemory, Text};
pub use web_variants as variants;
pub use web_worker as worker;
pub use web_worker::{
    Exchange, Flight, FnHandler, Handler, Outcome, Worker, poll_one, serve_all, serve_flights,
};
