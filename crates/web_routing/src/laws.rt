//! Laws of services, as contracts of functions that callers cite in proofs. A call of one has no
//! effect.
ghost use Rattle.std.specs.Prelude.{◌≡◌, ℕ, List, true, false};
ghost use Rattle.web_request.specs.declared.source.Mark.{Mark};
ghost use Rattle.web_request.specs.Request.{Request};
ghost use Rattle.web_reply.specs.ResponseBodies.{Plain};
ghost use Rattle.web_reply.specs.Replies.{Reply};
ghost use Rattle.web_worker.specs.ServicePromises.{Once};
ghost use Rattle.web_routing.specs.ServiceRoutes.{changed, chosen_promise};

use crate::route::Choose;
use crate::wrap::Change;
use web_request::App;
use web_worker::{Service, Whole};

/// A route gives what the service that is chosen gives.
pub fn route_law<A: App, C: Choose<A>, S: Service<A, Whole>, T: Service<A, Whole>>()
    ensures first { (c : C) (a : S) (b : T) (q : Request A.Layer A.Local A.Conn) (m : List Mark)
        (d : ℕ) (r : Reply Plain) → C.chosen c q ≡ true → Once (S.promise a q m) d r
        → Once (chosen_promise (C.chosen c q) (S.promise a q m) (T.promise b q m)) d r }
    ensures other { (c : C) (a : S) (b : T) (q : Request A.Layer A.Local A.Conn) (m : List Mark)
        (d : ℕ) (r : Reply Plain) → C.chosen c q ≡ false → Once (T.promise b q m) d r
        → Once (chosen_promise (C.chosen c q) (S.promise a q m) (T.promise b q m)) d r }
{}

/// A wrapped service gives the changed reply after the same delay.
pub fn wrap_law<A: App, S: Service<A, Whole>, F: Change<A>>()
    ensures { (a : S) (f : F) (q : Request A.Layer A.Local A.Conn) (m : List Mark) (d : ℕ)
        (r t : Reply Plain) → Once (S.promise a q m) d r
        → ((u : Reply Plain) → F.changes f (S.completed a q) r u → u ≡ t)
        → Once (changed (F.changes f (S.completed a q)) (S.promise a q m)) d t }
{}
