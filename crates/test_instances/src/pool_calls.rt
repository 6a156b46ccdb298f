//! Calls of a pool that keeps one record.
use crate::requests::{parts, pool};
use std::alloc::Global;
use std::process::Abort;
use web_body::Marks;
use web_cutting::{PoolCall, make_calls};
use web_request::{App, HttpRequest, HttpRequestPool, NoData, PlainApp, RequestParts};

fn start<A: App>(rt: &impl Abort, alloc: Global) -> PoolCall<RequestParts<A>> {
    PoolCall::Start(parts(rt, alloc))
}

/// Makes the calls, and compares the numbers that the pool keeps, how many it made, and the numbers
/// of the records that are held.
fn assert_after<A: App>(
    rt: &impl Abort,
    alloc: Global,
    pool: &mut HttpRequestPool<A>,
    held: &mut Vec<HttpRequest<A>>,
    calls: Vec<PoolCall<RequestParts<A>>>,
    expected: (&[u64], u64, &[u64]),
) {
    assert!(rt; pool.made() < 9 && calls.len() < 9);
    make_calls(alloc, pool, held, calls).expect(rt, "memory");
    assert_eq!(rt; pool.serials(), expected.0);
    assert_eq!(rt; pool.made(), expected.1);
    let mut numbers = Vec::new(alloc);
    for request in held.as_slice() {
        numbers.push(request.serial()).expect(rt, "memory");
    }
    assert_eq!(rt; numbers.as_slice(), expected.2);
}

#[test]
fn records_are_kept_used_again_and_dropped(rt: HostRuntime) {
    let alloc = rt.alloc();
    let mut pool = pool::<PlainApp<Marks>>(&rt, alloc, NoData, 1);
    let mut held = Vec::new(alloc);
    // One of two records is kept, and is used again.
    let calls = vec![in alloc;
        start(&rt, alloc),
        start(&rt, alloc),
        PoolCall::GiveBack(1),
        PoolCall::GiveBack(0),
        PoolCall::GiveBack(0),
        start(&rt, alloc),
        start(&rt, alloc),
    ];
    let calls = calls.expect(&rt, "memory");
    assert_after(&rt, alloc, &mut pool, &mut held, calls, (&[], 3, &[1, 2]));
    // A disabled pool keeps none.
    let calls = vec![in alloc;
        PoolCall::GiveBack(0),
        PoolCall::Disable,
        PoolCall::GiveBack(0),
    ];
    let calls = calls.expect(&rt, "memory");
    assert_after(&rt, alloc, &mut pool, &mut held, calls, (&[], 3, &[]));
}
