//! The errors of refusals, by the configured handlers.
ghost use Rattle.std.specs.Prelude.{◌≡◌, IfOk, IfSome, option_copied};
ghost use Rattle.web_request.specs.Head.{Head, head_view};
ghost use Rattle.web_reply.specs.Replies.{Fault};
ghost use Rattle.web_extract.specs.LayerConfigurations.{form_settings, json_settings};
ghost use Rattle.web_extract.specs.LayerConfigurations.{path_settings, query_settings};
ghost use Rattle.web_extract.specs.Refusals.{RefusedBy, form_fault, json_fault};
ghost use Rattle.web_extract.specs.Refusals.{path_fault, query_fault};

use crate::config::config_choices::{FormChoice, JsonChoice, PathChoice, QueryChoice};
use crate::config::layer_configs::Configs;
use crate::config::refuse::Refuse;
use http::StatusCode;
use std::alloc::Global;
use web_body::{JsonPayloadError, PathError, QueryPayloadError, UrlencodedError};
use web_reply::{Cause, Error};
use web_request::{App, HttpRequest, NoMemory};

/// The error of a refused JSON body: that of the configured handler where there is one, and else
/// the refusal's own.
pub fn json_refused<A: App>(
    alloc: Global,
    req: &HttpRequest<A>,
    fault: JsonPayloadError,
) -> Result<Error, NoMemory>
where
    A::Layer: Configs,
    ensures { IfOk result (λ x. RefusedBy A.Layer.OnJson.refuses json_fault
        (json_settings A.Layer.Configs.configurations req.now.request.layers).handler
        fault req.now.request.head x) }
{
    let handler = match req.nearest_config::<JsonChoice>() {
        Some(config) => config.handler(),
        None => None,
    };
    match handler {
        Some(handler) => handler.refuse(alloc, fault, req.head()),
        None => Ok(Error::from(fault)),
    }
}

/// The error of a refused form: that of the configured handler where there is one, and else the
/// refusal's own.
pub fn form_refused<A: App>(
    alloc: Global,
    req: &HttpRequest<A>,
    fault: UrlencodedError,
) -> Result<Error, NoMemory>
where
    A::Layer: Configs,
    ensures { IfOk result (λ x. RefusedBy A.Layer.OnForm.refuses form_fault
        (form_settings A.Layer.Configs.configurations req.now.request.layers).handler
        fault req.now.request.head x) }
{
    let handler = match req.nearest_config::<FormChoice>() {
        Some(config) => config.handler(),
        None => None,
    };
    match handler {
        Some(handler) => handler.refuse(alloc, fault, req.head()),
        None => Ok(Error::from(fault)),
    }
}

/// The error of refused parameters of a path: that of the configured handler where there is one,
/// and else one of status 404 with the text of the reader.
pub fn path_refused<A: App>(
    alloc: Global,
    req: &HttpRequest<A>,
    fault: PathError,
) -> Result<Error, NoMemory>
where
    A::Layer: Configs,
    ensures { IfOk result (λ x. RefusedBy A.Layer.OnPath.refuses path_fault
        (path_settings A.Layer.Configs.configurations req.now.request.layers).handler
        fault req.now.request.head x) }
{
    let handler = match req.nearest_config::<PathChoice>() {
        Some(config) => config.handler(),
        None => None,
    };
    match handler {
        Some(handler) => handler.refuse(alloc, fault, req.head()),
        None => Ok(not_found(fault)),
    }
}

fn not_found(fault: PathError) -> Error
    ensures { result ≡ path_fault fault }
{
    let PathError::Deserialize(refusal) = fault;
    Error::from(Cause::Custom {
        status: StatusCode::NOT_FOUND,
        text: refusal.text,
    })
}

/// The error of a refused query: that of the configured handler where there is one, and else the
/// refusal's own.
pub fn query_refused<A: App>(
    alloc: Global,
    req: &HttpRequest<A>,
    fault: QueryPayloadError,
) -> Result<Error, NoMemory>
where
    A::Layer: Configs,
    ensures { IfOk result (λ x. RefusedBy A.Layer.OnQuery.refuses query_fault
        (query_settings A.Layer.Configs.configurations req.now.request.layers).handler
        fault req.now.request.head x) }
{
    let handler = match req.nearest_config::<QueryChoice>() {
        Some(config) => config.handler(),
        None => None,
    };
    match handler {
        Some(handler) => handler.refuse(alloc, fault, req.head()),
        None => Ok(Error::from(fault)),
    }
}
