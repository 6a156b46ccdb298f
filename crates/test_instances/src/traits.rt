//! Traits as no program of this repository implements them: a mapper of replies, a configuration of
//! an application's own, and a layer with closures.
ghost use Rattle.web_extract.specs.LayerConfigurations.{IsUsableJson};

use crate::compare::assert_same;
use crate::requests::request;
use example_handlers::Booking;
use http_header::{HeaderName, HeaderValue};
use std::alloc::Global;
use std::marker::PhantomData;
use std::process::Abort;
use web_body::{JsonPayloadError, Marks, Poll, Step};
use web_decoders::{ByFn, JsonConfig};
use web_extract::{Configs, FromRequest, LayerConfigs, NoHandler};
use web_extract_body::Json;
use web_reply::{
    Cause, Error, HttpResponse, MappedError, ResponseError, ResponseMapper, WholeBody,
};
use web_request::{App, AppLayer, ConfigChoice, NoData, NoMemory, RequestHead};
use web_texts::Mime;

/// Adds the header `a` with this value.
#[derive(Drop)]
struct AddsHeader(&'static str);

impl ResponseMapper for AddsHeader {
    ghost use Rattle.std.specs.Prelude.{◌≡◌};

    ghost maps = { λ mapper first last. last.body ≡ first.body };

    fn map(
        &self,
        alloc: Global,
        response: HttpResponse<WholeBody>,
    ) -> Result<HttpResponse<WholeBody>, NoMemory> {
        let mut response = response;
        let Ok(value) = HeaderValue::from_str(alloc, self.0) else {
            return Err(NoMemory);
        };
        match response
            .headers_mut()
            .append(HeaderName::from_static("a"), value)
        {
            Ok(_) => Ok(response),
            Err(_) => Err(NoMemory),
        }
    }
}

/// The number of headers of an error's reply that a mapper changed.
fn mapped_headers(rt: &impl Abort, alloc: Global) -> usize {
    let mut mapped = MappedError::new(alloc, Error::from(Cause::MissingPeer));
    let mapper = Box::new(alloc, AddsHeader("1")).ok().expect(rt, "memory");
    if mapped.add_response_mapper(mapper).is_err() {
        panic!(rt; "memory");
    }
    let reply = mapped.error_response(alloc).expect(rt, "memory");
    reply.headers().len()
}

/// An application with layers of this type.
#[derive(Drop)]
struct Site<L> {
    layer: PhantomData<L>,
}

impl<L: AppLayer> App for Site<L> {
    type Layer = L;

    type Local = NoData;

    type Conn = NoData;

    type Source = Marks;
}

/// A layer with a number.
#[derive(Drop)]
struct NumberLayer {
    number: u32,
}

impl AppLayer for NumberLayer {}

/// The numbers of layers.
struct Number;

impl ConfigChoice<NumberLayer> for Number {
    ghost use Rattle.std.specs.Prelude.{None, Some};

    type Config = u32;

    ghost own = { λ layer. Some layer.number };

    ghost shared = { λ layer. None };

    fn own(layer: &NumberLayer) -> Option<&u32> {
        Some(&layer.number)
    }

    fn shared(_layer: &NumberLayer) -> Option<&u32> {
        None
    }
}

/// The number of the one layer of a request.
fn nearest_number(rt: &impl Abort, alloc: Global, number: u32) -> Option<u32> {
    let request = request::<Site<NumberLayer>>(rt, alloc, NumberLayer { number });
    request.nearest_config::<Number>().copied()
}

/// A layer that reads JSON bodies by closures.
#[derive(Drop)]
struct ClosureLayer<F, P> {
    json: JsonConfig<ByFn<F>, ByFn<P>>,
}

impl<
    F: Fn(JsonPayloadError, &RequestHead) -> Result<Error, NoMemory> + Drop,
    P: Fn(&Mime) -> bool + Drop,
> AppLayer for ClosureLayer<F, P> {
    ghost use Rattle.web_extract.specs.LayerConfigurations.{IsUsableJson};

    ghost ready = { λ l.
        IsUsableJson (λ h. F.IsAlwaysCallable h.0) (λ p. P.IsAlwaysCallable p.0) l.json };
}

impl<
    F: Fn(JsonPayloadError, &RequestHead) -> Result<Error, NoMemory> + Drop,
    P: Fn(&Mime) -> bool + Drop,
> Configs for ClosureLayer<F, P> {
    ghost use Rattle.std.specs.Prelude.{Some};
    ghost use Rattle.web_extract.specs.LayerConfigurations.{holds_nothing};

    type OnJson = ByFn<F>;

    type OnForm = NoHandler;

    type OnPath = NoHandler;

    type OnQuery = NoHandler;

    type JsonType = ByFn<P>;

    ghost configurations = { λ l. record (holds_nothing) { json = Some l.json } };

    fn configurations(
        &self,
    ) -> LayerConfigs<'_, ByFn<F>, NoHandler, NoHandler, NoHandler, ByFn<P>> {
        LayerConfigs {
            json: Some(&self.json),
            ..LayerConfigs::none()
        }
    }
}

/// The configuration of JSON bodies by closures.
fn json_config<
    F: Fn(JsonPayloadError, &RequestHead) -> Result<Error, NoMemory> + Drop,
    P: Fn(&Mime) -> bool + Drop,
>(on_json: F, json_type: P) -> JsonConfig<ByFn<F>, ByFn<P>>
    requires json { F.IsAlwaysCallable on_json }
    requires json_type { P.IsAlwaysCallable json_type }
    ensures { IsUsableJson (λ h. F.IsAlwaysCallable h.0) (λ p. P.IsAlwaysCallable p.0) result }
{
    let config: JsonConfig<ByFn<F>, ByFn<P>> = JsonConfig::new();
    config
        .content_type(ByFn(json_type))
        .error_handler(ByFn(on_json))
}

/// The status of an argument that is refused at the first poll.
fn refusal<T, F: Poll<Output = Result<T, Error>>>(
    rt: &impl Abort,
    alloc: Global,
    future: F,
) -> u16 {
    let mut future = future;
    assert!(rt; !future.finished());
    match future.poll(alloc) {
        Step::Ready(Err(error)) => error.as_response_error().status_code().as_u16(),
        _ => panic!(rt; "no refusal at the first poll"),
    }
}

/// The status of the refusal of a JSON value without a body, under this layer.
fn refused_json<L: Configs>(rt: &impl Abort, alloc: Global, layer: L) -> u16
    requires { L.ready layer }
{
    let request = request::<Site<L>>(rt, alloc, layer);
    refusal(
        rt,
        alloc,
        Json::<Booking>::extract(alloc, &request).expect(rt, "memory"),
    )
}

/// The status under a layer of these closures. It is made here, where they are of any type.
fn refused_under<
    F: Fn(JsonPayloadError, &RequestHead) -> Result<Error, NoMemory> + Drop,
    P: Fn(&Mime) -> bool + Drop,
>(rt: &impl Abort, alloc: Global, on_json: F, json_type: P) -> u16
    requires json { F.IsAlwaysCallable on_json }
    requires json_type { P.IsAlwaysCallable json_type }
{
    let json = json_config(on_json, json_type);
    refused_json(rt, alloc, ClosureLayer { json })
}

/// A closure answers the refusal, and another one says that no further media type is read.
fn answered_by_closure(rt: &impl Abort, alloc: Global) -> u16 {
    refused_under(
        rt,
        alloc,
        |_fault: JsonPayloadError, _head: &RequestHead| Ok(Error::from(Cause::MissingPeer)),
        |_media_type: &Mime| false,
    )
}

#[test]
fn traits_are_implemented(rt: HostRuntime) {
    let alloc = rt.alloc();
    assert_same(&rt, mapped_headers(&rt, alloc), 2);
    assert_same(&rt, nearest_number(&rt, alloc, 7), Some(7));
    assert_same(&rt, answered_by_closure(&rt, alloc), 500);
}
