//! Laws of the replies of handlers, as contracts of functions that callers cite in proofs. A call
//! of one has no effect.
ghost use Rattle.std.specs.Prelude.{◌≡◌, ◌+◌, ◌∷◌, [], ℕ, List, Result, Ok, Err, Some};
ghost use Rattle.std.specs.Result.{result_ok};
ghost use Rattle.web_request.specs.declared.source.Mark.{Mark};
ghost use Rattle.web_request.specs.Request.{Request};
ghost use Rattle.web_request.specs.Pool.{Pool};
ghost use Rattle.web_body.specs.Payload.{payload_feed};
ghost use Rattle.web_reply.specs.ResponseBodies.{Plain, whole_plain};
ghost use Rattle.web_reply.specs.Replies.{Fault, Reply, error_reply, plain_reply};
ghost use Rattle.web_extract.specs.ListMeanings.{Member};
ghost use Rattle.web_extract.specs.ListResults.{DelayedResult, Exactly, greatest};
ghost use Rattle.web_extract.specs.SeenResults.{SeenAs};
ghost use Rattle.web_worker.specs.AnsweredExchanges.{AreAnswered, StatesMarks, reply_or_error};
ghost use Rattle.web_worker.specs.Exchanges.{ExchangeView, request_of};
ghost use Rattle.web_worker.specs.HandlerServices.{request_promise, rules_of};
ghost use Rattle.web_worker.specs.OutcomeFunctions.{AnswersOnce, DeterministicOutcomes};
ghost use Rattle.web_worker.specs.Outcomes.{OutcomeView};
ghost use Rattle.web_worker.specs.PlanCalls.{ArgumentsOnce};
ghost use Rattle.web_worker.specs.ReplyFunctions.{AnswersOnly, LeadsTo, RepliesOnly};
ghost use Rattle.web_worker.specs.ReplyFunctions.{RespondsOnly};
ghost use Rattle.web_worker.specs.ServicePromises.{Once};

use crate::handler::Handler;
use crate::list_views::SeenTwo;
use crate::service::Service;
use crate::setting::Serves;
use web_extract::{FromRequest, View, list_law};
use web_reply::{Error, Responder};
use web_request::App;

/// What the service of a handler gives a request whose payload has these marks, where the
/// extractors, the handler and its value allow one thing: the reply comes after the delays of both.
///
/// `value` and `refusal` are for extractors that are seen as one result, as a `String` is by its
/// bytes, and `exactly` for those that allow exactly one. `came` asks that each allowed result
/// leads to this reply. `worker` is what a worker says of it.
///
/// `answers` and `exact` are the short form for a handler whose value is ready at once: an exchange
/// has one reply, that to the value or to the error in its place. `arguments` says when the handler
/// is called, and with what.
pub fn exchange_law<A: App, Args: FromRequest<A>, V: View<Args>, H: Handler<Args>>(handler: &H)
where
    H::Output: Responder<A>,
    ensures value { (q : Request A.Layer A.Local A.Conn) (m rest : List Mark) (d w : ℕ)
        (u : V.Seen) (r : Reply Plain)
        → SeenAs V.view (Member Args.Error.converts (Args.means q)) m rest
        (record { delay = d; result = Ok u })
        → ((v : Args) → V.view v ≡ u
        → RepliesOnly (H.answers handler.now v) (λ y. H.Output.responds y q) w r)
        → Once (request_promise (rules_of Args.means Args.Error.converts (H.answers handler.now)
        H.Output.responds) q m) (d + w) r }
    ensures refusal { (q : Request A.Layer A.Local A.Conn) (m rest : List Mark) (d : ℕ)
        (f : Fault)
        → SeenAs V.view (Member Args.Error.converts (Args.means q)) m rest
        (record { delay = d; result = Err f })
        → Once (request_promise (rules_of Args.means Args.Error.converts (H.answers handler.now)
        H.Output.responds) q m) d (plain_reply whole_plain (error_reply f)) }
    ensures exactly { (q : Request A.Layer A.Local A.Conn) (m rest : List Mark) (d w : ℕ)
        (v : Args) (y : H.Output) (r : Reply Plain)
        → Exactly (Member Args.Error.converts (Args.means q)) m rest
        (record { delay = d; result = Ok v })
        → AnswersOnly (H.answers handler.now v) w y → RespondsOnly (H.Output.responds y q) r
        → Once (request_promise (rules_of Args.means Args.Error.converts (H.answers handler.now)
        H.Output.responds) q m) (d + w) r }
    ensures came { (q : Request A.Layer A.Local A.Conn) (m : List Mark) (d w : ℕ)
        (r : Reply Plain)
        → ((rest : List Mark) (n : ℕ) (x : Result Args Args.Error) → Args.means q m rest n x
        → LeadsTo (rules_of Args.means Args.Error.converts (H.answers handler.now)
        H.Output.responds) q d w r n x)
        → Once (request_promise (rules_of Args.means Args.Error.converts (H.answers handler.now)
        H.Output.responds) q m) (d + w) r }
    ensures worker { (pool : Pool A.Layer)
        (x : ExchangeView A.Source A.Layer A.Local A.Conn) (m : List Mark) (d : ℕ)
        (r : Reply Plain)
        → (payload_feed A.Source.feed x.body).marks ≡ Some m
        → Once (request_promise (rules_of Args.means Args.Error.converts (H.answers handler.now)
        H.Output.responds) (request_of pool x) m) d r
        → AnswersOnce (⟦<H as Serves<A, Args>>⟧.setting handler.now pool) x d r }
    ensures answers { (pool : Pool A.Layer)
        (x : ExchangeView A.Source A.Layer A.Local A.Conn) (m rest : List Mark)
        (v : DelayedResult V.Seen) (reply : V.Seen → Reply Plain)
        → (payload_feed A.Source.feed x.body).marks ≡ Some m
        → SeenAs V.view (Member Args.Error.converts (Args.means (request_of pool x))) m rest v
        → ((u : Args) → RepliesOnly (H.answers handler.now u)
        (λ y. H.Output.responds y (request_of pool x)) 0 (reply (V.view u)))
        → AnswersOnce (⟦<H as Serves<A, Args>>⟧.setting handler.now pool) x v.delay
        (reply_or_error reply v.result) }
    ensures exact { (pool : Pool A.Layer)
        (x : ExchangeView A.Source A.Layer A.Local A.Conn) (m rest : List Mark)
        (v : DelayedResult Args) (reply : Args → Reply Plain)
        → (payload_feed A.Source.feed x.body).marks ≡ Some m
        → Exactly (Member Args.Error.converts (Args.means (request_of pool x))) m rest v
        → ((u : Args) → RepliesOnly (H.answers handler.now u)
        (λ y. H.Output.responds y (request_of pool x)) 0 (reply u))
        → AnswersOnce (⟦<H as Serves<A, Args>>⟧.setting handler.now pool) x v.delay
        (reply_or_error reply v.result) }
    ensures arguments { (pool : Pool A.Layer)
        (x : ExchangeView A.Source A.Layer A.Local A.Conn) (m rest : List Mark)
        (v : DelayedResult Args) → (payload_feed A.Source.feed x.body).marks ≡ Some m
        → Exactly (Member Args.Error.converts (Args.means (request_of pool x))) m rest v
        → ArgumentsOnce (⟦<H as Serves<A, Args>>⟧.setting handler.now pool) x v.delay
        (result_ok v.result) }
{
    let _handler = handler;
}

/// `exchange_law` of extractors whose error is `Error`, as that of each list is: what they mean is
/// what `list_law` says, without another step. `SeenOne` to `SeenFour` are the views of lists.
///
/// The clauses are those of `exchange_law`.
pub fn list_exchange_law<
    A: App,
    Args: FromRequest<A, Error = Error>,
    V: View<Args>,
    H: Handler<Args>,
>(handler: &H)
where
    H::Output: Responder<A>,
    ensures value { (q : Request A.Layer A.Local A.Conn) (m rest : List Mark) (d w : ℕ)
        (u : V.Seen) (r : Reply Plain)
        → SeenAs V.view (Args.means q) m rest (record { delay = d; result = Ok u })
        → ((v : Args) → V.view v ≡ u
        → RepliesOnly (H.answers handler.now v) (λ y. H.Output.responds y q) w r)
        → Once (request_promise (rules_of Args.means ⟦<Error as Into<Error>>⟧.converts
        (H.answers handler.now) H.Output.responds) q m) (d + w) r }
    ensures refusal { (q : Request A.Layer A.Local A.Conn) (m rest : List Mark) (d : ℕ)
        (f : Fault)
        → SeenAs V.view (Args.means q) m rest (record { delay = d; result = Err f })
        → Once (request_promise (rules_of Args.means ⟦<Error as Into<Error>>⟧.converts
        (H.answers handler.now) H.Output.responds) q m) d
        (plain_reply whole_plain (error_reply f)) }
    ensures answers { (pool : Pool A.Layer)
        (x : ExchangeView A.Source A.Layer A.Local A.Conn) (m rest : List Mark)
        (v : DelayedResult V.Seen) (reply : V.Seen → Reply Plain)
        → (payload_feed A.Source.feed x.body).marks ≡ Some m
        → SeenAs V.view (Args.means (request_of pool x)) m rest v
        → ((u : Args) → RepliesOnly (H.answers handler.now u)
        (λ y. H.Output.responds y (request_of pool x)) 0 (reply (V.view u)))
        → AnswersOnce (⟦<H as Serves<A, Args>>⟧.setting handler.now pool) x v.delay
        (reply_or_error reply v.result) }
    ensures exact { (pool : Pool A.Layer)
        (x : ExchangeView A.Source A.Layer A.Local A.Conn) (m rest : List Mark)
        (v : DelayedResult Args) (reply : Args → Reply Plain)
        → (payload_feed A.Source.feed x.body).marks ≡ Some m
        → Exactly (Args.means (request_of pool x)) m rest v
        → ((u : Args) → RepliesOnly (H.answers handler.now u)
        (λ y. H.Output.responds y (request_of pool x)) 0 (reply u))
        → AnswersOnce (⟦<H as Serves<A, Args>>⟧.setting handler.now pool) x v.delay
        (reply_or_error reply v.result) }
{
    let _handler = handler;
}

/// Exchanges each of which has one reply after one delay are answered so by every plan: what
/// `functions` of `serve_all` and `serve_flights` comes to for a list.
pub fn plan_law<A: App, Args, S: Service<A, Args>>(service: &S)
    ensures { (pool : Pool A.Layer)
        (delay : ExchangeView A.Source A.Layer A.Local A.Conn → ℕ)
        (reply : ExchangeView A.Source A.Layer A.Local A.Conn → Reply Plain)
        → ((x : ExchangeView A.Source A.Layer A.Local A.Conn) → StatesMarks A.Source.feed x
        → AnswersOnce (⟦<S as Serves<A, Args>>⟧.setting service.now pool) x (delay x) (reply x))
        → (plan : List ℕ) (xs : List (ExchangeView A.Source A.Layer A.Local A.Conn))
        (os : List OutcomeView)
        → DeterministicOutcomes (⟦<S as Serves<A, Args>>⟧.setting service.now pool) plan xs os
        → AreAnswered A.Source.feed delay reply plan xs os }
{
    let _service = service;
}

/// What a handler of two extractors replies, each of which is seen as one value: both come at the
/// greater delay.
pub fn two_arguments_law<
    A: App,
    X: FromRequest<A>,
    Y: FromRequest<A>,
    V: View<X>,
    W: View<Y>,
    H: Handler<(X, Y)>,
>(handler: &H)
where
    H::Output: Responder<A>,
    ensures { (q : Request A.Layer A.Local A.Conn) (m m1 m2 : List Mark) (a b w : ℕ)
        (x : V.Seen) (y : W.Seen) (r : Reply Plain)
        → SeenAs V.view (Member X.Error.converts (X.means q)) m m1
        (record { delay = a; result = Ok x })
        → SeenAs W.view (Member Y.Error.converts (Y.means q)) m1 m2
        (record { delay = b; result = Ok y })
        → ((v : X) (z : Y) → V.view v ≡ x → W.view z ≡ y
        → RepliesOnly (H.answers handler.now (v, z)) (λ o. H.Output.responds o q) w r)
        → Once (request_promise (rules_of ⟦<(X, Y) as FromRequest<A>>⟧.means
        ⟦<Error as Into<Error>>⟧.converts (H.answers handler.now) H.Output.responds) q m)
        (greatest (a ∷ b ∷ []) + w) r }
{
    list_law::<A, X, Y, X, Y, V, W, V, W>();
    list_exchange_law::<A, (X, Y), SeenTwo<V, W>, H>(handler);
}
