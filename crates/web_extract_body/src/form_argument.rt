//! A form as an argument.
ghost use Rattle.std.specs.Prelude.{◌≡◌, ◌⊎◌, false, IfOk, IsOk, codes, min, option_copied};
ghost use Rattle.std.specs.Option.{unwrap_or};
ghost use Rattle.web_request.specs.MessageFields.{first_content_type};
ghost use Rattle.web_body.specs.Payload.{payload_feed};
ghost use Rattle.web_body.specs.DecoderSettings.{default_form_settings};
ghost use Rattle.web_decoders.specs.FormBodies.{form_body_finished, form_gives};
ghost use Rattle.web_decoders.specs.WrittenTypes.{NeedsNoReading};
ghost use Rattle.web_extract.specs.Extracts.{Extracts};
ghost use Rattle.web_extract_body.specs.FormArgument.{MeansFormBody};

use crate::form_future::FormExtractFut;
use crate::form_value::Form;
use crate::kept_request::kept_request;
use std::alloc::Global;
use web_body::Payload;
use web_codec::ReadPairs;
use web_decoders::{DEFAULT_FORM_CONFIG_LIMIT, FormConfig, UrlEncoded};
use web_extract::{Configs, FormChoice, FromRequest, WithCap};
use web_reply::Error;
use web_request::{App, HttpRequest, NoMemory};

/// The value that is read from a form, under the request's configuration (`FormConfig`): by default
/// the limit is 16,384 bytes.
///
/// The head is tested first. A content type other than `application/x-www-form-urlencoded`, or with
/// a charset other than UTF-8, is `ContentType`, and a Content-Length that cannot be read is
/// `UnknownLength`; both leave the payload. A Content-Length above the limit is `Overflow` with
/// that length, and a Content-Encoding other than `identity` is `Payload(UnsupportedEncoding)`.
/// Then a body of more bytes than the limit is `Overflow` with the size of the first pieces that
/// pass it, one that fails `Payload(Io)`, and one that the reader refuses `Parse`.
///
/// Where a handler is configured, its error takes the place of each of these refusals.
impl<A: App, T: ReadPairs> FromRequest<A> for Form<T>
where
    A::Layer: Configs,
{
    ghost use Rattle.web_extract.specs.LayerConfigurations.{form_settings};
    ghost use Rattle.web_extract.specs.SomeAnswer.{itself};
    ghost use Rattle.web_extract_body.specs.FormArgument.{FormNeedsNoMemory, MeansForm, form_some};

    type Error = Error;

    type Future = FormExtractFut<T, A>;

    ghost means = { λ q m rest n x. MeansForm
        (form_settings A.Layer.Configs.configurations q.layers) A.Layer.OnForm.refuses
        T.reads_pairs q.head m rest n x };

    ghost needs_no_memory = { λ q. FormNeedsNoMemory
        (form_settings A.Layer.Configs.configurations q.layers) q.head.headers };

    ghost some = { λ q m. form_some
        (form_settings A.Layer.Configs.configurations q.layers) A.Layer.OnForm.refuses
        T.reads_pairs q.head m };

    ghost converted = { itself };

    fn from_request(
        alloc: Global,
        req: &HttpRequest<A>,
        payload: &mut Payload<A::Source>,
    ) -> Result<FormExtractFut<T, A>, NoMemory> {
        let config = req.nearest_config::<FormChoice>();
        let request = kept_request(alloc, req, handler_of(config))?;
        let body = form_body(alloc, req, payload, limit_of(config))?;
        Ok(FormExtractFut::new(body, request))
    }
}

/// The same under the lesser of the configured limit and a cap.
impl<A: App, T: ReadPairs> WithCap<A> for Form<T>
where
    A::Layer: Configs,
{
    ghost use Rattle.web_extract.specs.LayerConfigurations.{form_settings};
    ghost use Rattle.web_extract_body.specs.FormArgument.{FormNeedsNoMemory, MeansForm};
    ghost use Rattle.web_extract_body.specs.FormArgument.{capped_form, form_some};

    ghost means_capped = { λ cap q m rest n x. MeansForm
        (capped_form cap (form_settings A.Layer.Configs.configurations q.layers))
        A.Layer.OnForm.refuses T.reads_pairs q.head m rest n x };

    ghost capped_needs_no_memory = { λ q. FormNeedsNoMemory
        (form_settings A.Layer.Configs.configurations q.layers) q.head.headers };

    ghost some_capped = { λ cap q m. form_some
        (capped_form cap (form_settings A.Layer.Configs.configurations q.layers))
        A.Layer.OnForm.refuses T.reads_pairs q.head m };

    fn from_request_capped(
        alloc: Global,
        req: &HttpRequest<A>,
        payload: &mut Payload<A::Source>,
        cap: usize,
    ) -> Result<FormExtractFut<T, A>, NoMemory> {
        let config = req.nearest_config::<FormChoice>();
        let request = kept_request(alloc, req, handler_of(config))?;
        let body = form_body(alloc, req, payload, capped_limit(config, cap))?;
        Ok(FormExtractFut::new(body, request))
    }
}

/// The collector of the body, under a limit in bytes.
fn form_body<A: App, T: ReadPairs>(
    alloc: Global,
    req: &HttpRequest<A>,
    payload: &mut Payload<A::Source>,
    limit: usize,
) -> Result<UrlEncoded<T, A::Source>, NoMemory>
    ensures fresh { IfOk result (λ b. form_body_finished b ≡ false) }
    ensures extracts { IfOk result (λ b. Extracts
        (λ m rest n y. MeansFormBody limit T.reads_pairs req.now.request.head.headers m rest n y)
        (form_gives A.Source.feed T.reads_pairs b)
        (payload_feed A.Source.feed payload.old).marks
        (payload_feed A.Source.feed payload.new).marks) }
    ensures payload { (payload.new ≡ payload.old) ⊎ (payload.new ≡ Payload.None) }
    ensures memory { NeedsNoReading (codes "application/x-www-form-urlencoded")
        (first_content_type req.now.request.head.headers) → IsOk result }
{
    UrlEncoded::under_limit(alloc, req, payload, limit)
}

fn handler_of<H>(config: Option<&FormConfig<H>>) -> Option<&H>
    ensures { option_copied result
        ≡ (unwrap_or (option_copied config.entry) default_form_settings).handler }
{
    match config {
        Some(config) => config.handler(),
        None => None,
    }
}

fn limit_of<H>(config: Option<&FormConfig<H>>) -> usize
    ensures { result ≡ (unwrap_or (option_copied config.entry) default_form_settings).limit }
{
    match config {
        Some(config) => config.max_len(),
        None => DEFAULT_FORM_CONFIG_LIMIT,
    }
}

/// The lesser of the limit of a configuration and a cap, in bytes.
fn capped_limit<H>(config: Option<&FormConfig<H>>, cap: usize) -> usize
    ensures { result
        ≡ min (unwrap_or (option_copied config.entry) default_form_settings).limit cap }
{
    limit_of(config).min(cap)
}
