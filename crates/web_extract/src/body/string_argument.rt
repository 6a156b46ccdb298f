//! The whole body as a text.
ghost use Rattle.std.specs.Prelude.{◌≡◌, IfOk};

use crate::body::body_futures::{BytesExtractFut, StringExtractFut};
use crate::body::with_cap::WithCap;
use crate::config::layer_configs::Configs;
use crate::from_request::FromRequest;
use crate::head::head_tests::{
    capped_limit, limit_of, payload_config, required_type, text_refusal,
};
use std::alloc::Global;
use web_body::Payload;
use web_reply::Error;
use web_request::{App, HttpRequest, NoMemory};

/// The whole body as a text in UTF-8, under the limit of the request's configuration of payloads.
///
/// After the test of a required media type, as for `Bytes`, a Content-Type that is no media type,
/// or that has another charset than UTF-8, is refused with its `ContentTypeError`. These refusals
/// leave the payload. A body that is not UTF-8 is refused with a cause of status 400.
impl<A: App> FromRequest<A> for String
where
    A::Layer: Configs,
{
    ghost use Rattle.std.specs.Prelude.{◌≡◌, None};
    ghost use Rattle.web_request.specs.MessageFields.{first_content_type};
    ghost use Rattle.web_extract.specs.LayerConfigurations.{payload_settings};
    ghost use Rattle.web_extract.specs.SomeAnswer.{itself};
    ghost use Rattle.web_extract.specs.StringArgument.{MeansString, string_some};

    type Error = Error;

    type Future = StringExtractFut<A::Source>;

    ghost means = { λ q m rest n x. MeansString
        (payload_settings A.Layer.Configs.configurations q.layers) q.head.headers m rest n x };

    ghost needs_no_memory = { λ q.
        ((payload_settings A.Layer.Configs.configurations q.layers).required_type ≡ None)
        × (first_content_type q.head.headers ≡ None) };

    ghost some = { λ q m. string_some
        (payload_settings A.Layer.Configs.configurations q.layers) q.head.headers m };

    ghost converted = { itself };

    fn from_request(
        alloc: Global,
        req: &HttpRequest<A>,
        payload: &mut Payload<A::Source>,
    ) -> Result<StringExtractFut<A::Source>, NoMemory> {
        let config = payload_config(req);
        let refusal = text_refusal(alloc, req, required_type(config))?;
        let body = BytesExtractFut::new(alloc, req, payload, refusal, limit_of(config));
        Ok(StringExtractFut::new(body))
    }
}

/// The same under the lesser of the configured limit and a cap.
impl<A: App> WithCap<A> for String
where
    A::Layer: Configs,
{
    ghost use Rattle.std.specs.Prelude.{◌≡◌, None};
    ghost use Rattle.web_request.specs.MessageFields.{first_content_type};
    ghost use Rattle.web_extract.specs.CappedArguments.{capped_settings};
    ghost use Rattle.web_extract.specs.LayerConfigurations.{payload_settings};
    ghost use Rattle.web_extract.specs.StringArgument.{MeansString, string_some};

    ghost means_capped = { λ cap q m rest n x. MeansString
        (capped_settings cap (payload_settings A.Layer.Configs.configurations q.layers))
        q.head.headers m rest n x };

    ghost capped_needs_no_memory = { λ q.
        ((payload_settings A.Layer.Configs.configurations q.layers).required_type ≡ None)
        × (first_content_type q.head.headers ≡ None) };

    ghost some_capped = { λ cap q m. string_some
        (capped_settings cap (payload_settings A.Layer.Configs.configurations q.layers))
        q.head.headers m };

    fn from_request_capped(
        alloc: Global,
        req: &HttpRequest<A>,
        payload: &mut Payload<A::Source>,
        cap: usize,
    ) -> Result<StringExtractFut<A::Source>, NoMemory> {
        let config = payload_config(req);
        let refusal = text_refusal(alloc, req, required_type(config))?;
        let limit = capped_limit(config, cap);
        let body = BytesExtractFut::new(alloc, req, payload, refusal, limit);
        Ok(StringExtractFut::new(body))
    }
}
