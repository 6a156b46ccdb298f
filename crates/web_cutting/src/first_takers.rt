//! Arguments that leave all of the body or none: of a list of them the first that takes the body
//! has it, and each later one gets none.
ghost use Rattle.std.specs.Prelude.{ℕ};
ghost use Rattle.web_request.specs.Request.{Request};
ghost use Rattle.web_extract.specs.FirstTaker.{LeavesAllOrNone};

use bytes::Bytes;
use http::Method;
use http_uri::Uri;
use web_body::Payload;
use web_codec::{ReadJson, ReadPairs};
use web_extract::{Capped, Configs, FromRequest, WithCap};
use web_extract_body::{Either, Form, Json};
use web_extract_head::{Header, Path, Query};
use web_request::{App, ConnectionInfo, Data, Holds, HttpRequest, PeerAddr, ReqData, Source};
use web_texts::Duplicate;

/// `Json` and `Form` leave all of the body or none, and so do they, `Bytes` and `String` under
/// every cap. `Bytes` and `String` themselves do so by `web_extract::first_taker_law`.
///
/// The contract is a law, for callers to cite in proofs; a call of it has no effect.
pub fn value_taking_law<P: App, T: ReadJson, F: ReadPairs>()
where
    P::Layer: Configs,
    ensures json { (q : Request P.Layer P.Local P.Conn)
        → LeavesAllOrNone (⟦<Json<T> as FromRequest<P>>⟧.means q) }
    ensures form { (q : Request P.Layer P.Local P.Conn)
        → LeavesAllOrNone (⟦<Form<F> as FromRequest<P>>⟧.means q) }
    ensures capped_bytes { (cap : ℕ) (q : Request P.Layer P.Local P.Conn)
        → LeavesAllOrNone (⟦<Bytes as WithCap<P>>⟧.means_capped cap q) }
    ensures capped_string { (cap : ℕ) (q : Request P.Layer P.Local P.Conn)
        → LeavesAllOrNone (⟦<String as WithCap<P>>⟧.means_capped cap q) }
    ensures capped_json { (cap : ℕ) (q : Request P.Layer P.Local P.Conn)
        → LeavesAllOrNone (⟦<Json<T> as WithCap<P>>⟧.means_capped cap q) }
    ensures capped_form { (cap : ℕ) (q : Request P.Layer P.Local P.Conn)
        → LeavesAllOrNone (⟦<Form<F> as WithCap<P>>⟧.means_capped cap q) }
{}

/// `Capped` of an argument that leaves all of the body or none under this cap does so too.
///
/// The contract is a law, for callers to cite in proofs; a call of it has no effect.
pub fn capped_taking_law<P: App, A: WithCap<P>, const N: usize>()
    ensures { (q : Request P.Layer P.Local P.Conn) → LeavesAllOrNone (A.means_capped N q)
        → LeavesAllOrNone (⟦<Capped<A, N> as FromRequest<P>>⟧.means q) }
{}

/// `Either` leaves all of the body or none, whatever its sides are: it leaves what `Bytes` does.
///
/// The contract is a law, for callers to cite in proofs; a call of it has no effect.
pub fn either_taking_law<P: App, L: FromRequest<P>, R: FromRequest<P>>()
where
    P::Layer: Configs,
    ensures { (q : Request P.Layer P.Local P.Conn)
        → LeavesAllOrNone (⟦<Either<L, R> as FromRequest<P>>⟧.means q) }
{}

/// The payload as an argument leaves none of the body.
///
/// The contract is a law, for callers to cite in proofs; a call of it has no effect.
pub fn payload_taking_law<S: Source, P: App<Source = S>>()
    ensures { (q : Request P.Layer P.Local P.Conn)
        → LeavesAllOrNone (⟦<Payload<S> as FromRequest<P>>⟧.means q) }
{}

/// What the head and the connection say leaves all of the body.
///
/// The contract is a law, for callers to cite in proofs; a call of it has no effect.
pub fn head_taking_law<P: App>()
    ensures unit { (q : Request P.Layer P.Local P.Conn)
        → LeavesAllOrNone (⟦<() as FromRequest<P>>⟧.means q) }
    ensures request { (q : Request P.Layer P.Local P.Conn)
        → LeavesAllOrNone (⟦<HttpRequest<P> as FromRequest<P>>⟧.means q) }
    ensures uri { (q : Request P.Layer P.Local P.Conn)
        → LeavesAllOrNone (⟦<Uri as FromRequest<P>>⟧.means q) }
    ensures method { (q : Request P.Layer P.Local P.Conn)
        → LeavesAllOrNone (⟦<Method as FromRequest<P>>⟧.means q) }
    ensures connection { (q : Request P.Layer P.Local P.Conn)
        → LeavesAllOrNone (⟦<ConnectionInfo as FromRequest<P>>⟧.means q) }
    ensures peer { (q : Request P.Layer P.Local P.Conn)
        → LeavesAllOrNone (⟦<PeerAddr as FromRequest<P>>⟧.means q) }
{}

/// So do the data of the layers and of the request.
///
/// The contract is a law, for callers to cite in proofs; a call of it has no effect.
pub fn data_taking_law<P: App, T: Drop, U: Duplicate>()
where
    P::Layer: Holds<Data<T>>,
    P::Local: Holds<U>,
    ensures application { (q : Request P.Layer P.Local P.Conn)
        → LeavesAllOrNone (⟦<Data<T> as FromRequest<P>>⟧.means q) }
    ensures request { (q : Request P.Layer P.Local P.Conn)
        → LeavesAllOrNone (⟦<ReqData<U> as FromRequest<P>>⟧.means q) }
{}

/// So do parameters, a query and a typed header.
///
/// The contract is a law, for callers to cite in proofs; a call of it has no effect.
pub fn read_taking_law<P: App, T: ReadPairs, H: web_headers::Header + Drop>()
where
    P::Layer: Configs,
    ensures path { (q : Request P.Layer P.Local P.Conn)
        → LeavesAllOrNone (⟦<Path<T> as FromRequest<P>>⟧.means q) }
    ensures query { (q : Request P.Layer P.Local P.Conn)
        → LeavesAllOrNone (⟦<Query<T> as FromRequest<P>>⟧.means q) }
    ensures header { (q : Request P.Layer P.Local P.Conn)
        → LeavesAllOrNone (⟦<Header<H> as FromRequest<P>>⟧.means q) }
{}

/// A list of one to four arguments that leave all of the body or none does so too. So
/// `web_extract::first_taker_law` holds of a list in a list, in every nesting.
///
/// The contract is a law, for callers to cite in proofs; a call of it has no effect.
pub fn list_taking_law<
    P: App,
    A: FromRequest<P>,
    B: FromRequest<P>,
    C: FromRequest<P>,
    D: FromRequest<P>,
>()
    ensures one { (q : Request P.Layer P.Local P.Conn)
        → LeavesAllOrNone (A.means q) → LeavesAllOrNone (⟦<(A,) as FromRequest<P>>⟧.means q) }
    ensures two { (q : Request P.Layer P.Local P.Conn)
        → LeavesAllOrNone (A.means q) → LeavesAllOrNone (B.means q)
        → LeavesAllOrNone (⟦<(A, B) as FromRequest<P>>⟧.means q) }
    ensures three { (q : Request P.Layer P.Local P.Conn)
        → LeavesAllOrNone (A.means q) → LeavesAllOrNone (B.means q)
        → LeavesAllOrNone (C.means q)
        → LeavesAllOrNone (⟦<(A, B, C) as FromRequest<P>>⟧.means q) }
    ensures four { (q : Request P.Layer P.Local P.Conn)
        → LeavesAllOrNone (A.means q) → LeavesAllOrNone (B.means q)
        → LeavesAllOrNone (C.means q) → LeavesAllOrNone (D.means q)
        → LeavesAllOrNone (⟦<(A, B, C, D) as FromRequest<P>>⟧.means q) }
{}
