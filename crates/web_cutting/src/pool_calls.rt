//! Any list of calls of a pool of records.
ghost use Rattle.std.specs.Prelude.{◌≡◌, ◌+◌, ◌<◌, ◌^◌, OnErr, OnOk, length, slice_get};
ghost use Rattle.web_cutting.specs.PoolCalls.{HasDistinctSerials, IsStartCall, StopsAtStart};
ghost use Rattle.web_cutting.specs.PoolCalls.{after_call, after_calls, after_return, in_use};

use std::alloc::Global;
use web_request::{App, HttpRequest, HttpRequestPool, NoMemory, RequestParts};

/// A call of a pool by one who holds the records that it started. `P` is what a request is made of.
#[derive(Drop)]
pub enum PoolCall<P> {
    /// Start a request of these parts, and hold its record as the last.
    Start(P),
    /// Give back the record at this place among those that are held. Where there is none, nothing
    /// is done.
    GiveBack(usize),
    /// Disable the pool.
    Disable,
}

/// Starts a request, and holds its record as the last.
fn start_record<A: App>(
    alloc: Global,
    pool: &mut HttpRequestPool<A>,
    held: &mut Vec<HttpRequest<A>>,
    parts: RequestParts<A>,
) -> Result<(), NoMemory>
    requires counted { pool.old.made + 1 < 2 ^ 64 }
    ensures ok { OnOk result (in_use pool.new held.new.items
        ≡ after_call (in_use pool.old held.old.items) (PoolCall.Start parts)) }
    ensures err { OnErr result
        (in_use pool.new held.new.items ≡ in_use pool.old held.old.items) }
{
    let Ok(()) = held.reserve(1) else {
        return Err(NoMemory);
    };
    match pool.start(alloc, parts) {
        Ok(request) => match held.push(request) {
            Ok(()) => Ok(()),
            Err(_) => unreachable!(),
        },
        Err(_) => Err(NoMemory),
    }
}

/// Gives back the record at this place.
fn give_back_record<A: App>(
    pool: &mut HttpRequestPool<A>,
    held: &mut Vec<HttpRequest<A>>,
    place: usize,
)
    ensures { in_use pool.new held.new.items
        ≡ after_return (in_use pool.old held.old.items) place (slice_get held.old.items place) }
{
    if held.len() <= place {
        return;
    }
    let request = held.remove(place);
    pool.give_back(request);
}

/// Makes one call.
fn make_call<A: App>(
    alloc: Global,
    pool: &mut HttpRequestPool<A>,
    held: &mut Vec<HttpRequest<A>>,
    call: PoolCall<RequestParts<A>>,
) -> Result<(), NoMemory>
    requires counted { pool.old.made + 1 < 2 ^ 64 }
    ensures ok { OnOk result (in_use pool.new held.new.items
        ≡ after_call (in_use pool.old held.old.items) call) }
    ensures err { OnErr result
        (in_use pool.new held.new.items ≡ in_use pool.old held.old.items) }
    ensures start { OnErr result (IsStartCall call) }
{
    match call {
        PoolCall::Start(parts) => start_record(alloc, pool, held, parts),
        PoolCall::GiveBack(place) => {
            give_back_record(pool, held, place);
            Ok(())
        }
        PoolCall::Disable => {
            pool.disable();
            Ok(())
        }
    }
}

/// Makes any list of calls of a pool, in order. `held` has the records that the pool started and
/// that were not given back, the one that was started last at its end.
///
/// The numbers that the pool keeps are then those of a list with push, pop and clear within its
/// capacity, and each record that was started is the one of its number and its parts, with nothing
/// of an earlier use. Where the numbers in the pool and in `held` were distinct, as those of a new
/// pool are, they still are. Where a start lacks memory, returns `NoMemory`: the calls before it
/// were made, and no other.
pub fn make_calls<A: App>(
    alloc: Global,
    pool: &mut HttpRequestPool<A>,
    held: &mut Vec<HttpRequest<A>>,
    calls: Vec<PoolCall<RequestParts<A>>>,
) -> Result<(), NoMemory>
    requires counted { pool.old.made + length calls.items < 2 ^ 64 }
    ensures all { OnOk result (in_use pool.new held.new.items
        ≡ after_calls (in_use pool.old held.old.items) calls.items) }
    ensures stops { OnErr result (StopsAtStart (in_use pool.old held.old.items)
        (in_use pool.new held.new.items) calls.items) }
    ensures distinct { HasDistinctSerials (in_use pool.old held.old.items)
        → HasDistinctSerials (in_use pool.new held.new.items) }
{
    for call in calls {
        make_call(alloc, pool, held, call)?;
    }
    Ok(())
}
