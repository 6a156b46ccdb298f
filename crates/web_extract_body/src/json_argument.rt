//! A JSON value as an argument.
ghost use Rattle.std.specs.Prelude.{◌≡◌, ◌⊎◌, false, IfOk, IfSome, IsOk, min, option_copied};
ghost use Rattle.std.specs.Prelude.{codes};
ghost use Rattle.std.specs.Option.{unwrap_or};
ghost use Rattle.web_request.specs.MessageFields.{first_content_type};
ghost use Rattle.web_body.specs.Payload.{payload_feed};
ghost use Rattle.web_body.specs.DecoderSettings.{default_json_settings};
ghost use Rattle.web_decoders.specs.JsonBodies.{json_body_finished, json_gives};
ghost use Rattle.web_decoders.specs.WrittenTypes.{NeedsNoReading};
ghost use Rattle.web_extract.specs.Extracts.{Extracts};
ghost use Rattle.web_extract.specs.LayerConfigurations.{IsReady};
ghost use Rattle.web_extract_body.specs.JsonArgument.{MeansJsonBody};

use crate::json_future::JsonExtractFut;
use crate::json_value::Json;
use crate::kept_request::kept_request;
use std::alloc::Global;
use web_body::Payload;
use web_codec::ReadJson;
use web_decoders::{AllowType, DEFAULT_JSON_LIMIT, JsonBody, JsonConfig};
use web_extract::{Configs, FromRequest, JsonChoice, WithCap};
use web_reply::Error;
use web_request::{App, HttpRequest, NoMemory};

/// The value that is read from a JSON body, under the request's configuration (`JsonConfig`): by
/// default a media type of JSON is required, and the limit is 2,097,152 bytes.
///
/// The head is tested first. Where a media type is required, one that is absent, unreadable, or
/// neither of JSON nor allowed by the configured predicate is `ContentType`, and leaves the
/// payload. A Content-Length above the limit is `OverflowKnownLength`, and a Content-Encoding other
/// than `identity` is `Payload(UnsupportedEncoding)`. Then a body of more bytes than the limit is
/// `Overflow`, one that fails `Payload(Io)`, and one that gives no value `Deserialize`.
///
/// Where a handler is configured, its error takes the place of each of these refusals.
impl<A: App, T: ReadJson> FromRequest<A> for Json<T>
where
    A::Layer: Configs,
{
    ghost use Rattle.web_extract.specs.LayerConfigurations.{json_settings};
    ghost use Rattle.web_extract.specs.SomeAnswer.{itself};
    ghost use Rattle.web_extract_body.specs.JsonArgument.{JsonNeedsNoMemory, MeansJson, json_some};

    type Error = Error;

    type Future = JsonExtractFut<T, A>;

    ghost means = { λ q m rest n x. MeansJson
        (json_settings A.Layer.Configs.configurations q.layers) A.Layer.OnJson.refuses
        A.Layer.JsonType.allows_type T.reads q.head m rest n x };

    ghost needs_no_memory = { λ q. JsonNeedsNoMemory
        (json_settings A.Layer.Configs.configurations q.layers) q.head.headers };

    ghost some = { λ q m. json_some
        (json_settings A.Layer.Configs.configurations q.layers) A.Layer.OnJson.refuses
        A.Layer.JsonType.allows_type T.reads q.head m };

    ghost converted = { itself };

    fn from_request(
        alloc: Global,
        req: &HttpRequest<A>,
        payload: &mut Payload<A::Source>,
    ) -> Result<JsonExtractFut<T, A>, NoMemory> {
        let config = req.nearest_config::<JsonChoice>();
        let request = kept_request(alloc, req, handler_of(config))?;
        let body = json_body(alloc, req, payload, config, limit_of(config))?;
        Ok(JsonExtractFut::new(body, request))
    }
}

/// The same under the lesser of the configured limit and a cap.
impl<A: App, T: ReadJson> WithCap<A> for Json<T>
where
    A::Layer: Configs,
{
    ghost use Rattle.web_extract.specs.LayerConfigurations.{json_settings};
    ghost use Rattle.web_extract_body.specs.JsonArgument.{JsonNeedsNoMemory, MeansJson};
    ghost use Rattle.web_extract_body.specs.JsonArgument.{capped_json, json_some};

    ghost means_capped = { λ cap q m rest n x. MeansJson
        (capped_json cap (json_settings A.Layer.Configs.configurations q.layers))
        A.Layer.OnJson.refuses A.Layer.JsonType.allows_type T.reads q.head m rest n x };

    ghost capped_needs_no_memory = { λ q. JsonNeedsNoMemory
        (json_settings A.Layer.Configs.configurations q.layers) q.head.headers };

    ghost some_capped = { λ cap q m. json_some
        (capped_json cap (json_settings A.Layer.Configs.configurations q.layers))
        A.Layer.OnJson.refuses A.Layer.JsonType.allows_type T.reads q.head m };

    fn from_request_capped(
        alloc: Global,
        req: &HttpRequest<A>,
        payload: &mut Payload<A::Source>,
        cap: usize,
    ) -> Result<JsonExtractFut<T, A>, NoMemory> {
        let config = req.nearest_config::<JsonChoice>();
        let request = kept_request(alloc, req, handler_of(config))?;
        let body = json_body(alloc, req, payload, config, capped_limit(config, cap))?;
        Ok(JsonExtractFut::new(body, request))
    }
}

/// The collector of the body, under a configuration whose limit is replaced.
fn json_body<A: App, T: ReadJson, H, P: AllowType>(
    alloc: Global,
    req: &HttpRequest<A>,
    payload: &mut Payload<A::Source>,
    config: Option<&JsonConfig<H, P>>,
    limit: usize,
) -> Result<JsonBody<T, A::Source>, NoMemory>
    requires { IfSome config (λ c. IsReady P.ready c.now.predicate) }
    ensures fresh { IfOk result (λ b. json_body_finished b ≡ false) }
    ensures extracts { IfOk result (λ b. Extracts
        (λ m rest n y. MeansJsonBody
        (record (unwrap_or (option_copied config.entry) default_json_settings) { limit = limit })
        P.allows_type T.reads req.now.request.head.headers m rest n y)
        (json_gives A.Source.feed T.reads b)
        (payload_feed A.Source.feed payload.old).marks
        (payload_feed A.Source.feed payload.new).marks) }
    ensures payload { (payload.new ≡ payload.old) ⊎ (payload.new ≡ Payload.None) }
    ensures memory { ((unwrap_or (option_copied config.entry) default_json_settings).type_required
        ≡ false) ⊎ NeedsNoReading (codes "application/json")
        (first_content_type req.now.request.head.headers) → IsOk result }
{
    JsonBody::under_limit(
        alloc,
        req,
        payload,
        predicate_of(config),
        type_required(config),
        limit,
    )
}

fn handler_of<H, P>(config: Option<&JsonConfig<H, P>>) -> Option<&H>
    ensures { option_copied result
        ≡ (unwrap_or (option_copied config.entry) default_json_settings).handler }
{
    match config {
        Some(config) => config.handler(),
        None => None,
    }
}

fn predicate_of<H, P>(config: Option<&JsonConfig<H, P>>) -> Option<&P>
    ensures { option_copied result
        ≡ (unwrap_or (option_copied config.entry) default_json_settings).predicate }
{
    match config {
        Some(config) => config.predicate(),
        None => None,
    }
}

fn type_required<H, P>(config: Option<&JsonConfig<H, P>>) -> bool
    ensures { result
        ≡ (unwrap_or (option_copied config.entry) default_json_settings).type_required }
{
    match config {
        Some(config) => config.type_required(),
        None => true,
    }
}

fn limit_of<H, P>(config: Option<&JsonConfig<H, P>>) -> usize
    ensures { result ≡ (unwrap_or (option_copied config.entry) default_json_settings).limit }
{
    match config {
        Some(config) => config.max_len(),
        None => DEFAULT_JSON_LIMIT,
    }
}

/// The lesser of the limit of a configuration and a cap, in bytes.
fn capped_limit<H, P>(config: Option<&JsonConfig<H, P>>, cap: usize) -> usize
    ensures { result
        ≡ min (unwrap_or (option_copied config.entry) default_json_settings).limit cap }
{
    limit_of(config).min(cap)
}
