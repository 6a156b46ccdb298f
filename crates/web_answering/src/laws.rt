//! A law of the replies of an exchange. There is nothing to call it for.
ghost use Rattle.std.specs.Prelude.{◌≡◌, Some, ℕ};
ghost use Rattle.web_request.specs.Pool.{Pool};
ghost use Rattle.web_reply.specs.ResponseBodies.{Plain};
ghost use Rattle.web_reply.specs.Replies.{Reply};
ghost use Rattle.web_worker.specs.Exchanges.{ExchangeView, FlightView};
ghost use Rattle.web_worker.specs.OutcomeFunctions.{AnswersOnce};
ghost use Rattle.web_answering.specs.FlightReplies.{MayReply};

use web_request::App;
use web_worker::{Serves, Service};

/// Where an exchange can have only one reply, the future of that exchange gives that one.
pub fn one_reply_law<A: App, Args, S: Service<A, Args>>()
    ensures { (service : S) (worker : Pool A.Layer)
        (x : ExchangeView A.Source A.Layer A.Local A.Conn) (d : ℕ) (r p : Reply Plain)
        → AnswersOnce (⟦<S as Serves<A, Args>>⟧.setting service worker) x d r
        → MayReply (⟦<S as Serves<A, Args>>⟧.setting service worker)
        (Some (FlightView.Waiting x)) p → p ≡ r }
{}
