//! Arguments that leave the body, in every cutting of it.
ghost use Rattle.web_request.specs.Request.{Request};
ghost use Rattle.web_cutting.specs.CutFree.{CutFree};

use http::Method;
use http_uri::Uri;
use web_codec::ReadPairs;
use web_extract::{Configs, FromRequest};
use web_extract_head::{Header, Path, Query};
use web_request::{App, ConnectionInfo, Data, Holds, HttpRequest, PeerAddr, ReqData};
use web_texts::Duplicate;

/// What the head and the connection say is the same in every cutting of the body, which is left.
///
/// The contract is a law, for callers to cite in proofs; a call of it has no effect.
pub fn head_cutting_law<P: App>()
    ensures unit { (q : Request P.Layer P.Local P.Conn)
        → CutFree (⟦<() as FromRequest<P>>⟧.means q) }
    ensures request { (q : Request P.Layer P.Local P.Conn)
        → CutFree (⟦<HttpRequest<P> as FromRequest<P>>⟧.means q) }
    ensures uri { (q : Request P.Layer P.Local P.Conn)
        → CutFree (⟦<Uri as FromRequest<P>>⟧.means q) }
    ensures method { (q : Request P.Layer P.Local P.Conn)
        → CutFree (⟦<Method as FromRequest<P>>⟧.means q) }
    ensures connection { (q : Request P.Layer P.Local P.Conn)
        → CutFree (⟦<ConnectionInfo as FromRequest<P>>⟧.means q) }
    ensures peer { (q : Request P.Layer P.Local P.Conn)
        → CutFree (⟦<PeerAddr as FromRequest<P>>⟧.means q) }
{}

/// So are the data of the layers and of the request.
///
/// The contract is a law, for callers to cite in proofs; a call of it has no effect.
pub fn data_cutting_law<P: App, T: Drop, U: Duplicate>()
where
    P::Layer: Holds<Data<T>>,
    P::Local: Holds<U>,
    ensures application { (q : Request P.Layer P.Local P.Conn)
        → CutFree (⟦<Data<T> as FromRequest<P>>⟧.means q) }
    ensures request { (q : Request P.Layer P.Local P.Conn)
        → CutFree (⟦<ReqData<U> as FromRequest<P>>⟧.means q) }
{}

/// So are parameters, a query and a typed header.
///
/// The contract is a law, for callers to cite in proofs; a call of it has no effect.
pub fn read_cutting_law<P: App, T: ReadPairs, H: web_headers::Header + Drop>()
where
    P::Layer: Configs,
    ensures path { (q : Request P.Layer P.Local P.Conn)
        → CutFree (⟦<Path<T> as FromRequest<P>>⟧.means q) }
    ensures query { (q : Request P.Layer P.Local P.Conn)
        → CutFree (⟦<Query<T> as FromRequest<P>>⟧.means q) }
    ensures header { (q : Request P.Layer P.Local P.Conn)
        → CutFree (⟦<Header<H> as FromRequest<P>>⟧.means q) }
{}
