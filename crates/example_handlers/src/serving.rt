//! Two handlers, each served by a function whose contract says what its exchanges are answered
//! with.
ghost use Rattle.std.specs.Prelude.{◌≡◌, ◌+◌, ◌<◌, ◌^◌, ◌++◌, false, length, codes};
ghost use Rattle.std.specs.Prelude.{IfOk};
ghost use Rattle.std.specs.List.{All, list_any};
ghost use Rattle.web_reply.specs.Responders.{text_reply};
ghost use Rattle.web_worker.specs.AnsweredExchanges.{AreAnswered, StatesMarks};
ghost use Rattle.web_worker.specs.PlanCalls.{calls_of};
ghost use Rattle.web_worker.specs.Outcomes.{outcome_views};
ghost use Rattle.web_worker.specs.PlanOutcomes.{lacks_memory};
ghost use Rattle.example_handlers.specs.Examples.{body_and_rest, body_delay, body_reply};

use crate::echo::Echo;
use crate::second_poll::Greeter;
use bytes::Bytes;
use std::alloc::Global;
use web_extract::{Configs, Itself};
use web_request::{App, NoMemory};
use web_worker::{Exchange, Outcome, Worker, exchange_law, plan_law, serve_all};

/// The outcome of each exchange, or the exchanges where an allocation failed before the first poll.
pub type Outcomes<A> = Result<Vec<Outcome<A>>, (NoMemory, Vec<Exchange<A>>)>;

/// Serves the exchanges by a handler that keeps its calls.
///
/// An exchange whose body states its marks is answered once the plan has polled it more often than
/// its body stalls: with its bytes, or with the reply to the fault that reading it meets. Before
/// that it is unfinished. Where the head refuses the body, the reply to that comes at the first
/// poll. A failed allocation is the exception.
///
/// Where each body states its marks and no outcome lacks memory, the handler was called once for
/// each exchange whose body came and was not refused, in the order in which the plan lets the
/// bodies come.
pub fn serve_echo<A: App>(
    alloc: Global,
    worker: &mut Worker<A>,
    exchanges: Vec<Exchange<A>>,
    plan: &[usize],
    echo: &mut Echo,
) -> Outcomes<A>
where
    A::Layer: Configs,
    requires room { worker.old.made + length exchanges.items < 2 ^ 64 }
    ensures answered { IfOk result (λ os. AreAnswered A.Source.feed
        (λ x. body_delay A.Source.feed A.Layer.Configs.configurations worker.old x)
        (λ x. body_reply A.Source.feed A.Layer.Configs.configurations worker.old x)
        plan.now exchanges.items (outcome_views A.Source.feed os.items)) }
    ensures called { All (λ x. StatesMarks A.Source.feed x) exchanges.items → IfOk result (λ os.
        list_any lacks_memory (outcome_views A.Source.feed os.items) ≡ false → echo.new
        ≡ echo.old ++ calls_of
        (λ x. body_and_rest A.Source.feed A.Layer.Configs.configurations worker.old x)
        exchanges.items plan.now) }
{
    exchange_law::<A, (Bytes, Option<Bytes>), Itself, Echo>(&*echo);
    plan_law::<A, (Bytes, Option<Bytes>), Echo>(&*echo);
    serve_all(alloc, worker, exchanges, plan, echo)
}

/// Serves the exchanges by a handler whose future stalls once.
///
/// An exchange whose body states its marks is answered with `hello` once the plan has polled it
/// twice, and is unfinished before that. No body is read. A failed allocation is the exception.
pub fn serve_greeting<A: App>(
    alloc: Global,
    worker: &mut Worker<A>,
    exchanges: Vec<Exchange<A>>,
    plan: &[usize],
) -> Outcomes<A>
    requires room { worker.old.made + length exchanges.items < 2 ^ 64 }
    ensures { IfOk result (λ os. AreAnswered A.Source.feed
        (λ x. 1) (λ x. text_reply (codes "hello"))
        plan.now exchanges.items (outcome_views A.Source.feed os.items)) }
{
    exchange_law::<A, (), Itself, Greeter>(&Greeter);
    plan_law::<A, (), Greeter>(&Greeter);
    serve_all(alloc, worker, exchanges, plan, &mut Greeter)
}
