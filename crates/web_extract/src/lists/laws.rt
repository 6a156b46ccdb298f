//! Laws of argument lists, as contracts of functions that callers cite in proofs. A call of one has
//! no effect.
ghost use Rattle.std.specs.Prelude.{List};
ghost use Rattle.web_request.specs.Request.{Request};
ghost use Rattle.web_request.specs.declared.source.Mark.{Mark};
ghost use Rattle.web_extract.specs.FirstTaker.{FirstTakes2, FirstTakes3, FirstTakes4};
ghost use Rattle.web_extract.specs.FirstTaker.{LeavesAllOrNone};
ghost use Rattle.web_extract.specs.ListMeanings.{Member};
ghost use Rattle.web_extract.specs.ListResults.{AsList4, Decides1, Decides2, Decides3};
ghost use Rattle.web_extract.specs.ListResults.{Decides4};
ghost use Rattle.web_extract.specs.Never.{NeverRefuses};
ghost use Rattle.web_extract.specs.PerPlace.{PerPlace3, PerPlace4};
ghost use Rattle.web_extract.specs.SeenResults.{Sees1, Sees2, Sees3, Sees4, SeesExactly};
ghost use Rattle.web_extract.specs.SeenResults.{SeesList4, view2};

use crate::config::layer_configs::Configs;
use crate::from_request::FromRequest;
use crate::into_some::IntoSome;
use crate::lists::views::View;
use crate::never::Never;
use bytes::Bytes;
use web_reply::Error;
use web_request::App;

/// `Option` and `Result` arguments are never refused, neither alone nor as a place of a list.
pub fn optional_law<P: App, T: FromRequest<P>, E: Drop>()
where
    T::Error: IntoSome<E>,
    ensures option { (q : Request P.Layer P.Local P.Conn)
        → NeverRefuses (⟦<Option<T> as FromRequest<P>>⟧.means q) }
    ensures result { (q : Request P.Layer P.Local P.Conn)
        → NeverRefuses (⟦<Result<T, E> as FromRequest<P>>⟧.means q) }
    ensures option_place { (q : Request P.Layer P.Local P.Conn) → NeverRefuses
        (Member ⟦<Never as Into<Error>>⟧.converts (⟦<Option<T> as FromRequest<P>>⟧.means q)) }
    ensures result_place { (q : Request P.Layer P.Local P.Conn) → NeverRefuses
        (Member ⟦<Never as Into<Error>>⟧.converts (⟦<Result<T, E> as FromRequest<P>>⟧.means q)) }
{}

/// What a list of one to four arguments means where each of them allows one result, as its view
/// sees it. It comes at the greatest delay. If none of them refuses, it is all values; if one does,
/// that refusal; if several do, their errors in the order of places, joined as by `Error::join`.
/// Each argument gets the marks that the one before leaves, and the list leaves what the last one
/// leaves. That some result is allowed is said of each extractor (`FromRequest`).
///
/// The clauses `exactly_one` to `exactly_four` say it both ways, of arguments each of which allows
/// exactly one result and leaves certain marks: so does the list.
///
/// An argument that allows exactly one result is seen as that one by every view, `Itself` too.
/// `bytes_law`, `string_law` and `seen_places_law` say it of the built-in ones.
pub fn list_law<
    P: App,
    A: FromRequest<P>,
    B: FromRequest<P>,
    C: FromRequest<P>,
    D: FromRequest<P>,
    V: View<A>,
    W: View<B>,
    X: View<C>,
    Y: View<D>,
>()
    ensures exactly { (q : Request P.Layer P.Local P.Conn)
        → SeesExactly V.view (Member A.Error.converts (A.means q)) }
    ensures one { (q : Request P.Layer P.Local P.Conn)
        → Sees1 V.view (Member A.Error.converts (A.means q)) }
    ensures two { (q : Request P.Layer P.Local P.Conn) → Sees2 V.view W.view
        (Member A.Error.converts (A.means q))
        (Member B.Error.converts (B.means q)) }
    ensures three { (q : Request P.Layer P.Local P.Conn) → Sees3 V.view W.view X.view
        (Member A.Error.converts (A.means q))
        (Member B.Error.converts (B.means q))
        (Member C.Error.converts (C.means q)) }
    ensures four { (q : Request P.Layer P.Local P.Conn) → Sees4 V.view W.view X.view Y.view
        (Member A.Error.converts (A.means q))
        (Member B.Error.converts (B.means q))
        (Member C.Error.converts (C.means q))
        (Member D.Error.converts (D.means q)) }
    ensures exactly_one { (q : Request P.Layer P.Local P.Conn)
        → Decides1 (Member A.Error.converts (A.means q)) }
    ensures exactly_two { (q : Request P.Layer P.Local P.Conn) → Decides2
        (Member A.Error.converts (A.means q))
        (Member B.Error.converts (B.means q)) }
    ensures exactly_three { (q : Request P.Layer P.Local P.Conn) → Decides3
        (Member A.Error.converts (A.means q))
        (Member B.Error.converts (B.means q))
        (Member C.Error.converts (C.means q)) }
    ensures exactly_four { (q : Request P.Layer P.Local P.Conn) → Decides4
        (Member A.Error.converts (A.means q))
        (Member B.Error.converts (B.means q))
        (Member C.Error.converts (C.means q))
        (Member D.Error.converts (D.means q)) }
{}

/// A list of three or four arguments place by place, whatever they allow: what a result of each
/// place comes to, all values or the errors of those that refuse, joined, at the greatest of their
/// delays. `m` to `m4` are the marks before and after each place.
pub fn place_law<
    P: App,
    A: FromRequest<P>,
    B: FromRequest<P>,
    C: FromRequest<P>,
    D: FromRequest<P>,
>()
    ensures three { (q : Request P.Layer P.Local P.Conn) (m m1 m2 m3 : List Mark) → PerPlace3
        (Member A.Error.converts (A.means q) m m1)
        (Member B.Error.converts (B.means q) m1 m2)
        (Member C.Error.converts (C.means q) m2 m3) }
    ensures four { (q : Request P.Layer P.Local P.Conn) (m m1 m2 m3 m4 : List Mark) → PerPlace4
        (Member A.Error.converts (A.means q) m m1)
        (Member B.Error.converts (B.means q) m1 m2)
        (Member C.Error.converts (C.means q) m2 m3)
        (Member D.Error.converts (D.means q) m3 m4) }
{}

/// Four arguments nested in pairs, in any of the five ways that keep their order, have the same
/// delay and the same error or values as the list of four, where each of them allows one result as
/// its view sees it. Where each allows exactly one, so do they (`exactly_pairs` and those below).
pub fn nesting_law<
    P: App,
    A: FromRequest<P>,
    B: FromRequest<P>,
    C: FromRequest<P>,
    D: FromRequest<P>,
    V: View<A>,
    W: View<B>,
    X: View<C>,
    Y: View<D>,
>()
    ensures pairs { (q : Request P.Layer P.Local P.Conn) → SeesList4 V.view W.view X.view Y.view
        (Member A.Error.converts (A.means q)) (Member B.Error.converts (B.means q))
        (Member C.Error.converts (C.means q)) (Member D.Error.converts (D.means q))
        (view2 (view2 V.view W.view) (view2 X.view Y.view))
        (λ v. ((v.0, v.1), (v.2, v.3)))
        (⟦<((A, B), (C, D)) as FromRequest<P>>⟧.means q) }
    ensures right { (q : Request P.Layer P.Local P.Conn) → SeesList4 V.view W.view X.view Y.view
        (Member A.Error.converts (A.means q)) (Member B.Error.converts (B.means q))
        (Member C.Error.converts (C.means q)) (Member D.Error.converts (D.means q))
        (view2 V.view (view2 W.view (view2 X.view Y.view)))
        (λ v. (v.0, (v.1, (v.2, v.3))))
        (⟦<(A, (B, (C, D))) as FromRequest<P>>⟧.means q) }
    ensures left { (q : Request P.Layer P.Local P.Conn) → SeesList4 V.view W.view X.view Y.view
        (Member A.Error.converts (A.means q)) (Member B.Error.converts (B.means q))
        (Member C.Error.converts (C.means q)) (Member D.Error.converts (D.means q))
        (view2 (view2 (view2 V.view W.view) X.view) Y.view)
        (λ v. (((v.0, v.1), v.2), v.3))
        (⟦<(((A, B), C), D) as FromRequest<P>>⟧.means q) }
    ensures inner { (q : Request P.Layer P.Local P.Conn) → SeesList4 V.view W.view X.view Y.view
        (Member A.Error.converts (A.means q)) (Member B.Error.converts (B.means q))
        (Member C.Error.converts (C.means q)) (Member D.Error.converts (D.means q))
        (view2 V.view (view2 (view2 W.view X.view) Y.view))
        (λ v. (v.0, ((v.1, v.2), v.3)))
        (⟦<(A, ((B, C), D)) as FromRequest<P>>⟧.means q) }
    ensures outer { (q : Request P.Layer P.Local P.Conn) → SeesList4 V.view W.view X.view Y.view
        (Member A.Error.converts (A.means q)) (Member B.Error.converts (B.means q))
        (Member C.Error.converts (C.means q)) (Member D.Error.converts (D.means q))
        (view2 (view2 V.view (view2 W.view X.view)) Y.view)
        (λ v. ((v.0, (v.1, v.2)), v.3))
        (⟦<((A, (B, C)), D) as FromRequest<P>>⟧.means q) }
    ensures exactly_pairs { (q : Request P.Layer P.Local P.Conn) → AsList4
        (Member A.Error.converts (A.means q)) (Member B.Error.converts (B.means q))
        (Member C.Error.converts (C.means q)) (Member D.Error.converts (D.means q))
        (λ v. ((v.0, v.1), (v.2, v.3)))
        (⟦<((A, B), (C, D)) as FromRequest<P>>⟧.means q) }
    ensures exactly_right { (q : Request P.Layer P.Local P.Conn) → AsList4
        (Member A.Error.converts (A.means q)) (Member B.Error.converts (B.means q))
        (Member C.Error.converts (C.means q)) (Member D.Error.converts (D.means q))
        (λ v. (v.0, (v.1, (v.2, v.3))))
        (⟦<(A, (B, (C, D))) as FromRequest<P>>⟧.means q) }
    ensures exactly_left { (q : Request P.Layer P.Local P.Conn) → AsList4
        (Member A.Error.converts (A.means q)) (Member B.Error.converts (B.means q))
        (Member C.Error.converts (C.means q)) (Member D.Error.converts (D.means q))
        (λ v. (((v.0, v.1), v.2), v.3))
        (⟦<(((A, B), C), D) as FromRequest<P>>⟧.means q) }
    ensures exactly_inner { (q : Request P.Layer P.Local P.Conn) → AsList4
        (Member A.Error.converts (A.means q)) (Member B.Error.converts (B.means q))
        (Member C.Error.converts (C.means q)) (Member D.Error.converts (D.means q))
        (λ v. (v.0, ((v.1, v.2), v.3)))
        (⟦<(A, ((B, C), D)) as FromRequest<P>>⟧.means q) }
    ensures exactly_outer { (q : Request P.Layer P.Local P.Conn) → AsList4
        (Member A.Error.converts (A.means q)) (Member B.Error.converts (B.means q))
        (Member C.Error.converts (C.means q)) (Member D.Error.converts (D.means q))
        (λ v. ((v.0, (v.1, v.2)), v.3))
        (⟦<((A, (B, C)), D) as FromRequest<P>>⟧.means q) }
{}

/// In one argument list the first argument that takes the payload has its marks, and each later one
/// gets none. The law holds of arguments that leave all marks or none, as `Bytes` and `String` do,
/// and `Option` and `Result` of such an argument.
pub fn first_taker_law<
    P: App,
    A: FromRequest<P>,
    B: FromRequest<P>,
    C: FromRequest<P>,
    D: FromRequest<P>,
>()
where
    P::Layer: Configs,
    ensures bytes { (q : Request P.Layer P.Local P.Conn)
        → LeavesAllOrNone (⟦<Bytes as FromRequest<P>>⟧.means q) }
    ensures string { (q : Request P.Layer P.Local P.Conn)
        → LeavesAllOrNone (⟦<String as FromRequest<P>>⟧.means q) }
    ensures option { (q : Request P.Layer P.Local P.Conn) → LeavesAllOrNone (A.means q)
        → LeavesAllOrNone (⟦<Option<A> as FromRequest<P>>⟧.means q) }
    ensures result { (q : Request P.Layer P.Local P.Conn) → LeavesAllOrNone (A.means q)
        → LeavesAllOrNone (⟦<Result<A, A::Error> as FromRequest<P>>⟧.means q) }
    ensures two { (q : Request P.Layer P.Local P.Conn)
        → LeavesAllOrNone (A.means q) → LeavesAllOrNone (B.means q) → FirstTakes2
        (Member A.Error.converts (A.means q))
        (Member B.Error.converts (B.means q)) }
    ensures three { (q : Request P.Layer P.Local P.Conn)
        → LeavesAllOrNone (A.means q) → LeavesAllOrNone (B.means q)
        → LeavesAllOrNone (C.means q) → FirstTakes3
        (Member A.Error.converts (A.means q))
        (Member B.Error.converts (B.means q))
        (Member C.Error.converts (C.means q)) }
    ensures four { (q : Request P.Layer P.Local P.Conn)
        → LeavesAllOrNone (A.means q) → LeavesAllOrNone (B.means q)
        → LeavesAllOrNone (C.means q) → LeavesAllOrNone (D.means q) → FirstTakes4
        (Member A.Error.converts (A.means q))
        (Member B.Error.converts (B.means q))
        (Member C.Error.converts (C.means q))
        (Member D.Error.converts (D.means q)) }
{}
