//! Laws of the outcomes that a worker may give, and of the records of its pool.
ghost use Rattle.std.specs.Prelude.{◌≡◌, ◌++◌, ◌∷◌, [], List, ℕ};
ghost use Rattle.web_request.specs.declared.config.AppConfig.{AppConfig as Config};
ghost use Rattle.web_request.specs.Pool.{Pool, after_disable, after_give_back, after_start};
ghost use Rattle.web_request.specs.Pool.{new_pool, next_serial};
ghost use Rattle.web_request.specs.Request.{Request};
ghost use Rattle.web_worker.specs.Outcomes.{OutcomeView};
ghost use Rattle.web_worker.specs.PlanPools.{pool_after};
ghost use Rattle.web_worker.specs.PoolRun.{DistinctSerials, SerialState, Taken};
ghost use Rattle.web_worker.specs.Isolation.{SameInBothRuns};
ghost use Rattle.web_worker.specs.ServiceStates.{MovesTo, Runs};

use crate::service::Service;
use crate::setting::Serves;
use web_request::App;

/// Requests in flight do not affect each other. An exchange with one delay and one reply has the
/// same outcome in two runs, unless an allocation fails in one of them, where both poll it equally
/// often, both workers have the same root layer and configuration, and both services promise
/// the same. What else either run serves, and in which order, makes no difference.
///
/// The contract is the law, over the outcomes that `serve_all` and `serve_flights` allow; there is
/// nothing to call it for.
pub fn isolation_law<A: App, Args, S: Service<A, Args>>()
    ensures { (first second : Pool A.Layer) (one other : S)
        → first.root ≡ second.root → first.config ≡ second.config
        → S.same_promises one other
        → SameInBothRuns (⟦<S as Serves<A, Args>>⟧.setting one first)
        (⟦<S as Serves<A, Args>>⟧.setting other second) }
{}

/// The numbers of records are distinct. In a pool and with those that hold its records each number
/// that was made stands at most once, and no other number stands there. A new pool has this, and
/// it stays so where a record is taken, where one that is held comes back, where the pool is
/// disabled, and after a whole plan.
///
/// The contract is the law, over the states that `start`, `give_back`, `disable`, `serve_flights`
/// and `serve_all` leave; there is nothing to call it for.
pub fn distinct_serials_law<A: App>()
    ensures new { (root : A.Layer) (config : Config) (capacity : ℕ)
        → DistinctSerials (new_pool root config capacity) [] }
    ensures start { (pool : Pool A.Layer) (held : List SerialState) → DistinctSerials pool held
        → DistinctSerials (after_start pool) (Taken (next_serial pool) ∷ held) }
    ensures give_back { (pool : Pool A.Layer) (x : ℕ) (before after : List SerialState)
        → DistinctSerials pool (before ++ Taken x ∷ after)
        → DistinctSerials (after_give_back x pool) (before ++ after) }
    ensures disable { (pool : Pool A.Layer) (held : List SerialState) → DistinctSerials pool held
        → DistinctSerials (after_disable pool) held }
    ensures plan { (delay : ℕ → ℕ) (pool : Pool A.Layer) (exchanges plan : List ℕ)
        → DistinctSerials pool [] → DistinctSerials (pool_after delay pool exchanges plan) [] }
{}

/// Exchanges that are served one after another are a run of the service's steps: where one that a
/// poll answered (`state` of `poll_flight`) comes before such a run, both are one.
///
/// The contract is the law, over what `poll_one` and `poll_flight` say of the service's state;
/// there is nothing to call it for.
pub fn run_law<A: App, Args, S: Service<A, Args>>()
    ensures none { (s : S) → Runs S.states [] [] s s }
    ensures next { (q : Request A.Layer A.Local A.Conn) (o : OutcomeView)
        (qs : List (Request A.Layer A.Local A.Conn)) (os : List OutcomeView) (a b c : S)
        → MovesTo S.states q o a b → Runs S.states qs os b c
        → Runs S.states (q ∷ qs) (o ∷ os) a c }
{}
