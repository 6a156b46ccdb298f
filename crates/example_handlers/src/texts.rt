//! Lists with a text, a request, its target or its payload: what they allow, by the laws of
//! `web_extract`, and a handler of one of them.
ghost use Rattle.std.specs.Prelude.{◌≡◌, ◌+◌, ◌<◌, ◌^◌, List, [], Ok, Some, IfOk};
ghost use Rattle.std.specs.Prelude.{length, string_bytes};
ghost use Rattle.http_uri.specs.declared.uri.Uri.{Uri as Address};
ghost use Rattle.web_request.specs.Head.{head_target, uri_view};
ghost use Rattle.web_request.specs.Request.{Request};
ghost use Rattle.web_request.specs.declared.source.Mark.{Mark};
ghost use Rattle.web_body.specs.Payload.{payload_feed};
ghost use Rattle.web_body.specs.declared.payload.Payload.{Payload as Unread};
ghost use Rattle.web_extract.specs.BytesArgument.{bytes_rest};
ghost use Rattle.web_extract.specs.HeadArguments.{immediate};
ghost use Rattle.web_extract.specs.LayerConfigurations.{payload_settings};
ghost use Rattle.web_extract.specs.ListResults.{list4};
ghost use Rattle.web_extract.specs.PayloadArgument.{payload_result};
ghost use Rattle.web_extract.specs.SeenResults.{SeenAs, view2, view4};
ghost use Rattle.web_extract.specs.StringArgument.{string_rest, string_result};
ghost use Rattle.web_worker.specs.AnsweredExchanges.{AreAnswered, reply_or_error};
ghost use Rattle.web_worker.specs.Outcomes.{outcome_views};
ghost use Rattle.example_handlers.specs.Texts.{text_and_rest, text_argument, text_of};

use crate::serving::Outcomes;
use bytes::Bytes;
use http_uri::Uri;
use std::alloc::Global;
use web_body::Payload;
use web_extract::{
    ByBytes, ByMarks, ByParts, Configs, FromRequest, Itself, Ready, RequestAlone, list_law,
    payload_place_law, seen_places_law,
};
use web_request::{App, HttpRequest, NoMemory, Source};
use web_worker::{Exchange, FnHandler, SeenTwo, Worker, list_exchange_law, plan_law, serve_all};

/// A text and the bytes after it allow one result: the text by its bytes, and the body that the
/// text leaves.
pub fn text_list_law<P: App>()
where
    P::Layer: Configs,
    ensures { (q : Request P.Layer P.Local P.Conn) (m : List Mark) → SeenAs
        (view2 string_bytes (λ v. v)) (⟦<(String, Bytes) as FromRequest<P>>⟧.means q) m
        (bytes_rest (payload_settings P.Layer.Configs.configurations q.layers) q.head.headers
        (string_rest (payload_settings P.Layer.Configs.configurations q.layers) q.head.headers m))
        (text_and_rest (payload_settings P.Layer.Configs.configurations q.layers)
        q.head.headers m) }
{
    seen_places_law::<P>();
    list_law::<P, String, Bytes, Bytes, Bytes, ByBytes, Itself, Itself, Itself>();
}

/// A request, its target, its body as a text and the payload after that allow one result: the
/// request without its record, the parts of the target, the bytes of the text, and the marks that
/// the text leaves. It is said where some target has these parts, and some payload these marks.
pub fn request_list_law<S: Source, P: App<Source = S>>()
where
    P::Layer: Configs,
    ensures { (q : Request P.Layer P.Local P.Conn) (m : List Mark)
        → (u : Address) → uri_view u ≡ head_target q.head
        → (p : Unread S) → (payload_feed S.feed p).marks ≡ Some
        (string_rest (payload_settings P.Layer.Configs.configurations q.layers) q.head.headers m)
        → SeenAs
        (view4 (λ r. r.request) uri_view string_bytes (λ p. (payload_feed S.feed p).marks))
        (⟦<(HttpRequest<P>, Uri, String, Payload<S>) as FromRequest<P>>⟧.means q) m []
        (list4 (immediate (Ok q)) (immediate (Ok (head_target q.head)))
        (string_result (payload_settings P.Layer.Configs.configurations q.layers) q.head.headers m)
        (payload_result (string_rest (payload_settings P.Layer.Configs.configurations q.layers)
        q.head.headers m))) }
{
    seen_places_law::<P>();
    payload_place_law::<S, P>();
    list_law::<
        P,
        HttpRequest<P>,
        Uri,
        String,
        Payload<S>,
        RequestAlone,
        ByParts,
        ByBytes,
        ByMarks,
    >();
}

/// Serves the exchanges by a closure of two arguments that responds with the text of the body.
///
/// An exchange whose body states its marks is answered once the plan has polled it more often than
/// its body stalls: with the text, or with the one error of its two arguments. Before that it is
/// unfinished. A failed allocation is the exception.
pub fn serve_texts<A: App>(
    alloc: Global,
    worker: &mut Worker<A>,
    exchanges: Vec<Exchange<A>>,
    plan: &[usize],
) -> Outcomes<A>
where
    A::Layer: Configs,
    requires room { worker.old.made + length exchanges.items < 2 ^ 64 }
    ensures { IfOk result (λ os. AreAnswered A.Source.feed
        (λ x. (text_argument A.Source.feed A.Layer.Configs.configurations worker.old x).delay)
        (λ x. reply_or_error text_of
        (text_argument A.Source.feed A.Layer.Configs.configurations worker.old x).result)
        plan.now exchanges.items (outcome_views A.Source.feed os.items)) }
{
    text_list_law::<A>();
    let mut handler = FnHandler(|arguments: (String, Bytes)| -> Result<Ready<String>, NoMemory> {
        let (text, _rest) = arguments;
        Ok(Ready::new(text))
    });
    list_exchange_law::<A, (String, Bytes), SeenTwo<ByBytes, Itself>, _>(&handler);
    plan_law::<A, (String, Bytes), _>(&handler);
    serve_all(alloc, worker, exchanges, plan, &mut handler)
}
