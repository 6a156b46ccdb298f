//! An application's own loop over flights.
ghost use Rattle.std.specs.Prelude.{◌≡◌, count_by, is_some};
ghost use Rattle.web_worker.specs.Flights.{answer_of};

use std::alloc::Global;
use web_request::App;
use web_worker::{Flight, Service, Worker, poll_one};

/// Polls each flight once, in turn, as long as the worker can count a further record.
fn poll_round<A: App, Args, H: Service<A, Args>>(
    alloc: Global,
    worker: &mut Worker<A>,
    handler: &mut H,
    flights: &mut [Flight<A, Args, H>],
)
    requires { H.ready handler.old }
    ensures { H.ready handler.new }
{
    for k in 0..flights.len() {
        if worker.pool().made() < u64::MAX {
            poll_one(alloc, worker, handler, flights, k);
        }
    }
}

/// Whether a flight shows an outcome.
fn is_answered<A: App, Args, H: Service<A, Args>>(flight: &Flight<A, Args, H>) -> bool
    ensures { result ≡ is_some (answer_of flight.now) }
{
    flight.outcome().is_some()
}

/// How many of the flights are answered.
fn answered_count<A: App, Args, H: Service<A, Args>>(flights: &[Flight<A, Args, H>]) -> usize
    ensures { result ≡ count_by (λ f. is_some (answer_of f)) flights.now }
{
    flights.iter().filter(|flight| is_answered(flight)).count()
}

/// Polls the flights in turn, round after round, until each is answered or the rounds are over.
/// Returns how many are answered.
///
/// A round has one poll of each flight. No flight is polled once the worker cannot count a further
/// record.
pub fn poll_rounds<A: App, Args, H: Service<A, Args>>(
    alloc: Global,
    worker: &mut Worker<A>,
    handler: &mut H,
    flights: &mut [Flight<A, Args, H>],
    rounds: usize,
) -> usize
    requires { H.ready handler.old }
    ensures ready { H.ready handler.new }
    ensures count { result ≡ count_by (λ f. is_some (answer_of f)) flights.new }
{
    for _ in 0..rounds {
        if answered_count(flights) == flights.len() {
            break;
        }
        poll_round(alloc, worker, handler, flights);
    }
    answered_count(flights)
}
