//! A worker for tests, and one request that it serves.
ghost use Rattle.std.specs.Prelude.{◌≡◌, ◌<◌, [], ◌∷◌, ℕ, length, IfOk};
ghost use Rattle.web_request.specs.Pool.{Pool};
ghost use Rattle.web_reply.specs.ResponseBodies.{Plain};
ghost use Rattle.web_reply.specs.Replies.{Reply};
ghost use Rattle.web_worker.specs.Exchanges.{ExchangeView};
ghost use Rattle.web_worker.specs.OutcomeFunctions.{AnswersOnce, DeterministicOutcomes};
ghost use Rattle.web_worker.specs.Outcomes.{OutcomeMeets, OutcomeView, outcome_view};
ghost use Rattle.web_worker.specs.PlanOutcomes.{AllowedOutcomes};
ghost use Rattle.web_testing.specs.TestWorkers.{new_test_pool, plan_of_one};

use std::alloc::Global;
use std::rc::Rc;
use web_request::{App, AppConfig};
use web_texts::NoMemory;
use web_worker::{Exchange, Outcome, Serves, Service, Worker, serve_all};

/// How often `serve_request` polls a request, and a body of a reply is polled, at most.
pub const MOST_POLLS: usize = 64;

/// One poll after another of the one exchange.
const PLAN: [usize; MOST_POLLS] = [0; MOST_POLLS];

/// A worker with this root layer, which serves as `localhost:8080` without TLS and keeps no
/// records.
pub fn test_worker<A: App>(alloc: Global, root: A::Layer) -> Result<Worker<A>, NoMemory>
    requires { A.Layer.ready root }
    ensures { IfOk result (λ worker. worker ≡ new_test_pool root) }
{
    let config = AppConfig::local(alloc)?;
    Worker::new(alloc, Rc::new(alloc, root)?, config, 0)
}

/// The one outcome of a list.
fn only_outcome<A: App>(mut outcomes: Vec<Outcome<A>>) -> Outcome<A>
    requires { length outcomes.items ≡ 1 }
    ensures { outcomes.items ≡ result ∷ [] }
{
    match outcomes.pop() {
        Some(outcome) => outcome,
        None => unreachable!(),
    }
}

/// A list of one item.
fn list_of<T: Drop>(alloc: Global, item: T) -> Result<Vec<T>, NoMemory>
    ensures { IfOk result (λ list. list.items ≡ item ∷ []) }
{
    let mut list = Vec::new(alloc);
    match list.push(item) {
        Ok(()) => Ok(list),
        Err(_) => Err(NoMemory),
    }
}

/// Serves one request by a handler or another service, and by a worker of its own with this root
/// layer, and polls it until it is answered, `MOST_POLLS` times at most.
pub fn serve_request<A: App, Args, H: Service<A, Args>>(
    alloc: Global,
    root: A::Layer,
    exchange: Exchange<A>,
    handler: &mut H,
) -> Result<Outcome<A>, NoMemory>
    requires root { A.Layer.ready root }
    requires ready { H.ready handler.old }
    ensures ready { H.ready handler.new }
    ensures same_promises { H.same_promises handler.old handler.new }
    ensures outcome { IfOk result (λ o. AllowedOutcomes
        (⟦<H as Serves<A, Args>>⟧.setting handler.old (new_test_pool root))
        plan_of_one (exchange ∷ []) (outcome_view A.Source.feed o ∷ [])) }
    ensures function { IfOk result (λ o. DeterministicOutcomes
        (⟦<H as Serves<A, Args>>⟧.setting handler.old (new_test_pool root))
        plan_of_one (exchange ∷ []) (outcome_view A.Source.feed o ∷ [])) }
{
    let mut worker = test_worker::<A>(alloc, root)?;
    let exchanges = list_of(alloc, exchange)?;
    match serve_all::<A, Args, H>(alloc, &mut worker, exchanges, &PLAN, handler) {
        Ok(outcomes) => Ok(only_outcome(outcomes)),
        Err(_) => Err(NoMemory),
    }
}

/// A request that has one reply, after fewer than `MOST_POLLS` polls that leave it open, gets that
/// one from `serve_request`: what its clause `function` comes to. The contract is the law; a call
/// has no effect.
pub fn reply_law<A: App, Args, H: Service<A, Args>>(handler: &H)
    ensures { (pool : Pool A.Layer) (x : ExchangeView A.Source A.Layer A.Local A.Conn) (d : ℕ)
        (r : Reply Plain) → d < 64
        → AnswersOnce (⟦<H as Serves<A, Args>>⟧.setting handler.now pool) x d r → (o : OutcomeView)
        → DeterministicOutcomes (⟦<H as Serves<A, Args>>⟧.setting handler.now pool)
        plan_of_one (x ∷ []) (o ∷ [])
        → OutcomeMeets (λ reply. reply ≡ r) o }
{
    let _handler = handler;
}
