//! The whole body as an argument.
ghost use Rattle.std.specs.Prelude.{◌≡◌, IfOk};

use crate::body::body_futures::BytesExtractFut;
use crate::body::with_cap::WithCap;
use crate::config::layer_configs::Configs;
use crate::from_request::FromRequest;
use crate::head::head_tests::{
    capped_limit, limit_of, payload_config, required_type, type_refusal,
};
use bytes::Bytes;
use std::alloc::Global;
use web_body::Payload;
use web_reply::Error;
use web_request::{App, HttpRequest, NoMemory};

/// The whole body, under the limit of the request's configuration of payloads (`PayloadConfig`),
/// which is 262,144 bytes where no layer has one.
///
/// Where the configuration requires a media type, a Content-Type that is no media type is refused
/// with its `ContentTypeError`, and one that is absent, or another media type or has other
/// parameters, with a cause of status 400. These refusals leave the payload, and making them may
/// allocate. Every other one takes it, and comes as `HttpMessageBody` says.
impl<A: App> FromRequest<A> for Bytes
where
    A::Layer: Configs,
{
    ghost use Rattle.std.specs.Prelude.{◌≡◌, None};
    ghost use Rattle.web_extract.specs.BytesArgument.{MeansBytes, bytes_some};
    ghost use Rattle.web_extract.specs.LayerConfigurations.{payload_settings};
    ghost use Rattle.web_extract.specs.SomeAnswer.{itself};

    type Error = Error;

    type Future = BytesExtractFut<A::Source>;

    ghost means = { λ q m rest n x. MeansBytes
        (payload_settings A.Layer.Configs.configurations q.layers) q.head.headers m rest n x };

    ghost needs_no_memory = { λ q.
        (payload_settings A.Layer.Configs.configurations q.layers).required_type ≡ None };

    ghost some = { λ q m. bytes_some
        (payload_settings A.Layer.Configs.configurations q.layers) q.head.headers m };

    ghost converted = { itself };

    // Inlined as `BytesExtractFut::new` is.
    #[inline(always)]
    fn from_request(
        alloc: Global,
        req: &HttpRequest<A>,
        payload: &mut Payload<A::Source>,
    ) -> Result<BytesExtractFut<A::Source>, NoMemory> {
        let config = payload_config(req);
        let refusal = type_refusal(alloc, req, required_type(config))?;
        Ok(BytesExtractFut::new(alloc, req, payload, refusal, limit_of(config)))
    }
}

/// The same under the lesser of the configured limit and a cap.
impl<A: App> WithCap<A> for Bytes
where
    A::Layer: Configs,
{
    ghost use Rattle.std.specs.Prelude.{◌≡◌, None};
    ghost use Rattle.web_extract.specs.BytesArgument.{MeansBytes, bytes_some};
    ghost use Rattle.web_extract.specs.CappedArguments.{capped_settings};
    ghost use Rattle.web_extract.specs.LayerConfigurations.{payload_settings};

    ghost means_capped = { λ cap q m rest n x. MeansBytes
        (capped_settings cap (payload_settings A.Layer.Configs.configurations q.layers))
        q.head.headers m rest n x };

    ghost capped_needs_no_memory = { λ q.
        (payload_settings A.Layer.Configs.configurations q.layers).required_type ≡ None };

    ghost some_capped = { λ cap q m. bytes_some
        (capped_settings cap (payload_settings A.Layer.Configs.configurations q.layers))
        q.head.headers m };

    fn from_request_capped(
        alloc: Global,
        req: &HttpRequest<A>,
        payload: &mut Payload<A::Source>,
        cap: usize,
    ) -> Result<BytesExtractFut<A::Source>, NoMemory> {
        let config = payload_config(req);
        let refusal = type_refusal(alloc, req, required_type(config))?;
        Ok(BytesExtractFut::new(alloc, req, payload, refusal, capped_limit(config, cap)))
    }
}
