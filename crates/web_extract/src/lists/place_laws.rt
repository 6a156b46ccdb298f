//! Laws of single places of an argument list, as contracts of functions that callers cite in
//! proofs. A call of one has no effect.
ghost use Rattle.std.specs.Prelude.{◌≡◌, List, [], Ok, Some, string_bytes};
ghost use Rattle.http_uri.specs.declared.uri.Uri.{Uri as Address};
ghost use Rattle.web_request.specs.Head.{head_target, uri_view};
ghost use Rattle.web_request.specs.Request.{Request};
ghost use Rattle.web_request.specs.declared.source.Mark.{Mark};
ghost use Rattle.web_body.specs.Payload.{payload_feed};
ghost use Rattle.web_body.specs.declared.payload.Payload.{Payload as Unread};
ghost use Rattle.web_extract.specs.BytesArgument.{bytes_rest, bytes_result};
ghost use Rattle.web_extract.specs.HeadArguments.{immediate};
ghost use Rattle.web_extract.specs.LayerConfigurations.{payload_settings};
ghost use Rattle.web_extract.specs.ListMeanings.{Member};
ghost use Rattle.web_extract.specs.PayloadArgument.{payload_result};
ghost use Rattle.web_extract.specs.SeenResults.{ExactAlike, SeenAlike, SeenAs};
ghost use Rattle.web_extract.specs.StringArgument.{string_rest, string_result};

use crate::config::layer_configs::Configs;
use crate::from_request::FromRequest;
use crate::lists::views::View;
use crate::never::Never;
use bytes::Bytes;
use http_uri::Uri;
use web_body::Payload;
use web_reply::Error;
use web_request::{App, HttpRequest, Source};

/// Where the error of an argument is `Error` itself, the argument is in a place of a list what it
/// is alone: each result that it is seen as alone, or allows exactly, it is seen as there.
pub fn same_error_law<P: App, A: FromRequest<P, Error = Error>, V: View<A>>()
    ensures seen { (q : Request P.Layer P.Local P.Conn) → SeenAlike V.view (A.means q)
        (Member ⟦<Error as Into<Error>>⟧.converts (A.means q)) }
    ensures exactly { (q : Request P.Layer P.Local P.Conn) → ExactAlike V.view (A.means q)
        (Member ⟦<Error as Into<Error>>⟧.converts (A.means q)) }
{}

/// `Bytes`, `String`, `HttpRequest` and `Uri` as places of a list. Each allows one result: a text
/// seen by its bytes, a request without its record, a target by its parts. The clause `uri` is for
/// requests whose target some `Uri` has.
pub fn seen_places_law<P: App>()
where
    P::Layer: Configs,
    ensures bytes { (q : Request P.Layer P.Local P.Conn) (m : List Mark) → SeenAs (λ v. v)
        (Member ⟦<Error as Into<Error>>⟧.converts (⟦<Bytes as FromRequest<P>>⟧.means q)) m
        (bytes_rest (payload_settings P.Layer.Configs.configurations q.layers) q.head.headers m)
        (bytes_result (payload_settings P.Layer.Configs.configurations q.layers)
        q.head.headers m) }
    ensures string { (q : Request P.Layer P.Local P.Conn) (m : List Mark) → SeenAs string_bytes
        (Member ⟦<Error as Into<Error>>⟧.converts (⟦<String as FromRequest<P>>⟧.means q)) m
        (string_rest (payload_settings P.Layer.Configs.configurations q.layers) q.head.headers m)
        (string_result (payload_settings P.Layer.Configs.configurations q.layers)
        q.head.headers m) }
    ensures request { (q : Request P.Layer P.Local P.Conn) (m : List Mark)
        → SeenAs (λ r. r.request)
        (Member ⟦<Error as Into<Error>>⟧.converts (⟦<HttpRequest<P> as FromRequest<P>>⟧.means q))
        m m (immediate (Ok q)) }
    ensures uri { (q : Request P.Layer P.Local P.Conn) (m : List Mark)
        → (u : Address) → uri_view u ≡ head_target q.head → SeenAs uri_view
        (Member ⟦<Never as Into<Error>>⟧.converts (⟦<Uri as FromRequest<P>>⟧.means q))
        m m (immediate (Ok (head_target q.head))) }
{}

/// `Payload` as a place of a list, for marks that some payload has. It is seen by its marks, which
/// are all that there are, and leaves none.
pub fn payload_place_law<S: Source, P: App<Source = S>>()
    ensures { (q : Request P.Layer P.Local P.Conn) (m : List Mark)
        → (p : Unread S) → (payload_feed S.feed p).marks ≡ Some m
        → SeenAs (λ p. (payload_feed S.feed p).marks)
        (Member ⟦<Error as Into<Error>>⟧.converts (⟦<Payload<S> as FromRequest<P>>⟧.means q))
        m [] (payload_result m) }
{}
