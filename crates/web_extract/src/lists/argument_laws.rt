//! Laws of the built-in arguments, as contracts of functions that callers cite in proofs. A call of
//! one has no effect.
ghost use Rattle.std.specs.Prelude.{List, Ok, string_bytes};
ghost use Rattle.web_request.specs.Connections.{connection_of};
ghost use Rattle.web_request.specs.Request.{Request};
ghost use Rattle.web_request.specs.declared.source.Mark.{Mark};
ghost use Rattle.web_extract.specs.BytesArgument.{bytes_rest, bytes_result};
ghost use Rattle.web_extract.specs.DataArguments.{data_result, request_data_result};
ghost use Rattle.web_extract.specs.HeadArguments.{OnlyNow, OnlyTarget, seen_request};
ghost use Rattle.web_extract.specs.LayerConfigurations.{payload_settings};
ghost use Rattle.web_extract.specs.ListResults.{Exactly};
ghost use Rattle.web_extract.specs.PayloadArgument.{OnlyPayload};
ghost use Rattle.web_extract.specs.PeerArgument.{peer_or_missing};
ghost use Rattle.web_extract.specs.SeenResults.{SeenAs};
ghost use Rattle.web_extract.specs.StringArgument.{string_rest, string_result};

use crate::config::layer_configs::Configs;
use crate::from_request::FromRequest;
use bytes::Bytes;
use http::Method;
use http_uri::Uri;
use web_body::Payload;
use web_request::{App, ConnectionInfo, Data, Holds, HttpRequest, PeerAddr, ReqData, Source};
use web_texts::Duplicate;

/// `Data` and `ReqData` allow exactly one result, at the first poll: what the nearest layer, or the
/// data of the request, holds, or the refusal where it is not held.
pub fn data_law<P: App, T: Drop, U: Duplicate>()
where
    P::Layer: Holds<Data<T>>,
    P::Local: Holds<U>,
    ensures application { (q : Request P.Layer P.Local P.Conn) (m : List Mark) → Exactly
        (⟦<Data<T> as FromRequest<P>>⟧.means q) m m (data_result P.Layer.Holds.held q.layers) }
    ensures request { (q : Request P.Layer P.Local P.Conn) (m : List Mark) → Exactly
        (⟦<ReqData<U> as FromRequest<P>>⟧.means q) m m
        (request_data_result P.Local.Holds.held q.local) }
{}

/// A request, its method and its target as arguments allow exactly one result, at the first poll:
/// the request, in whatever record; the method; and a target that has the parts of the request's.
pub fn head_law<P: App>()
    ensures request { (q : Request P.Layer P.Local P.Conn)
        → OnlyNow seen_request (⟦<HttpRequest<P> as FromRequest<P>>⟧.means q) (Ok q) }
    ensures method { (q : Request P.Layer P.Local P.Conn)
        → OnlyNow (λ x. x) (⟦<Method as FromRequest<P>>⟧.means q) (Ok q.head.method) }
    ensures uri { (q : Request P.Layer P.Local P.Conn)
        → OnlyTarget q.head (⟦<Uri as FromRequest<P>>⟧.means q) }
{}

/// `ConnectionInfo` and `PeerAddr` allow exactly one result, at the first poll: what the head says
/// under the settings of the worker; and the address of the peer, or that it is missing.
pub fn connection_law<P: App>()
    ensures connection { (q : Request P.Layer P.Local P.Conn)
        → OnlyNow (λ x. x) (⟦<ConnectionInfo as FromRequest<P>>⟧.means q)
        (Ok (connection_of q.head q.config)) }
    ensures peer { (q : Request P.Layer P.Local P.Conn)
        → OnlyNow (λ x. x) (⟦<PeerAddr as FromRequest<P>>⟧.means q)
        (peer_or_missing q.head.peer) }
{}

/// A payload as an argument allows exactly one result, at the first poll: a payload of all the
/// marks, of which none is left for later arguments.
pub fn payload_law<S: Source, P: App<Source = S>>()
    ensures { (q : Request P.Layer P.Local P.Conn)
        → OnlyPayload S.feed (⟦<Payload<S> as FromRequest<P>>⟧.means q) }
{}

/// `Bytes` allows exactly one result: the refusal of the first test of the head that fails, or else
/// what collecting the body gives.
pub fn bytes_law<P: App>()
where
    P::Layer: Configs,
    ensures { (q : Request P.Layer P.Local P.Conn) (m : List Mark) → Exactly
        (⟦<Bytes as FromRequest<P>>⟧.means q) m
        (bytes_rest (payload_settings P.Layer.Configs.configurations q.layers) q.head.headers m)
        (bytes_result (payload_settings P.Layer.Configs.configurations q.layers) q.head.headers m) }
{}

/// `String` allows one result, seen by the bytes of the text: the tests of the head, with that of
/// the charset, and then the body, collected and decoded. Texts of the same bytes may differ in
/// their memory.
pub fn string_law<P: App>()
where
    P::Layer: Configs,
    ensures { (q : Request P.Layer P.Local P.Conn) (m : List Mark) → SeenAs string_bytes
        (⟦<String as FromRequest<P>>⟧.means q) m
        (string_rest (payload_settings P.Layer.Configs.configurations q.layers) q.head.headers m)
        (string_result (payload_settings P.Layer.Configs.configurations q.layers)
        q.head.headers m) }
{}
