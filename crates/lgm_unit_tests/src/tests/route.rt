//! `lgm_route`: searches that workers share, over small maps, and routes and words. What `route` lines are answered is
//! in `tests/scripts`.

use lgm_gossip::Scid;
use lgm_graph::{Known, View};
use lgm_par::Gate;
use lgm_route::{Hop, Request, Route, RouteFault, least, least_chunked};
use lgm_store::Map;
use lgm_test_gossip::ops::{channel, update};
use lgm_test_gossip::{FREE, Terms, empty_map, point};
use std::alloc::{AllocError, Global};
use std::process::Abort;
use std::sync::atomic::{AtomicU64, Ordering};
use std::test::Fail;
use std::thread;
use std::thread::Threads;

/// A channel of the map, and its direction from the first node to the second.
fn join(
    map: &mut Map,
    alloc: Global,
    scid: Scid,
    from: u16,
    to: u16,
    terms: &Terms,
) -> Result<(), AllocError> {
    map.absorb(&channel(alloc, scid, (from, to), 2_100_000_000_000_000, &[])?)?;
    map.absorb(&update(alloc, scid, 0, terms)?)
}

/// What the payer sends, its expiry, and the ids of the channels in one list.
fn told(alloc: Global, route: &Route) -> Result<Vec<u64>, AllocError> {
    let mut told = Vec::new(alloc);
    told.push(route.sent())?;
    told.push(u64::from(route.expiry()))?;
    for hop in route.as_slice() {
        told.push(hop.scid.to_u64())?;
    }
    Ok(told)
}

/// That the answer is this route.
fn assert_route(
    rt: &impl Abort,
    alloc: Global,
    answer: Result<Route, RouteFault>,
    expected: &[u64],
) -> Result<(), AllocError> {
    match answer {
        Ok(route) => {
            let told = told(alloc, &route)?;
            assert_eq!(rt; told.as_slice(), expected);
        }
        Err(fault) => assert!(rt; false, "{fault}"),
    }
    Ok(())
}

/// The maximum number of turns that a chunk waits.
const LIMIT: u64 = 100_000_000;

/// Lets the first chunks through, and then delays chunk 0 until chunk 1 has passed.
#[derive(Drop)]
struct Pairs {
    passes: AtomicU64,
    ones: AtomicU64,
    turns: AtomicU64,
}

impl Pairs {
    fn new() -> Pairs {
        Pairs {
            passes: AtomicU64::new(0),
            ones: AtomicU64::new(0),
            turns: AtomicU64::new(0),
        }
    }
}

impl Gate for Pairs {
    fn pass(&self, piece: usize) {
        let first = self.passes.fetch_add(1, Ordering::SeqCst) == 0;
        if piece == 1 {
            self.ones.fetch_add(1, Ordering::SeqCst);
        }
        if first || piece != 0 {
            return;
        }
        let mut turns = 0;
        for turn in 0..LIMIT {
            turns = turn + 1;
            if self.ones.load(Ordering::SeqCst) > 0 {
                break;
            }
            thread::yield_now();
        }
        self.turns.fetch_add(turns, Ordering::SeqCst);
    }
}

/// A payment from node 0.
fn payment(to: u16, amount: u64) -> Request {
    Request {
        payer: point(0),
        payee: point(to),
        amount,
        expiry: 700_000,
    }
}

/// The view of a map with few channels.
fn view_of(alloc: Global, map: &Map) -> Result<Box<View>, AllocError> {
    if map.count() > 10_000 {
        return Err(AllocError);
    }
    Ok(Box::new(alloc, View::of(alloc, map, &Known::all())?)?)
}

/// The route of a payment that these workers find behind this gate.
fn found_by(
    rt: &(impl Threads + Sync),
    alloc: Global,
    workers: usize,
    gate: &Pairs,
    map: &Map,
    request: &Request,
) -> Result<Result<Route, RouteFault>, AllocError> {
    let view = view_of(alloc, map)?;
    let workers = workers.clamp(1, 64);
    Ok(least_chunked(rt, alloc, workers, gate, &view, request))
}

/// Two ways from node 0 to node 3 that send the same over as many channels.
fn two_ways(alloc: Global) -> Result<Box<Map>, AllocError> {
    let mut map = empty_map(alloc)?;
    for (block, from, to) in [(1, 0, 1), (2, 0, 2), (3, 1, 3), (4, 2, 3)] {
        join(&mut map, alloc, Scid::new(block, 0, 0), from, to, &FREE)?;
    }
    Ok(map)
}

/// The one of the least ids: what it sends, its expiry, and its ids.
fn least_ids() -> [u64; 4] {
    let (first, second) = (Scid::new(1, 0, 0), Scid::new(3, 0, 0));
    [1000, 700_040, first.to_u64(), second.to_u64()]
}

/// The payee is relaxed alone, which is the first pass, and then both nodes before it at once, a chunk for each.
#[test]
fn two_pieces_at_once(rt: HostRuntime) -> Result<(), Fail> {
    let alloc = rt.alloc();
    let map = two_ways(alloc)?;
    let gate = Pairs::new();
    let found = found_by(&rt, alloc, 2, &gate, &map, &payment(3, 1000))?;
    assert_route(&rt, alloc, found, &least_ids())?;
    let turns = gate.turns.load(Ordering::SeqCst);
    assert!(rt; 0 < turns && turns < LIMIT, "ended at the limit");
    assert_eq!(rt; gate.passes.load(Ordering::SeqCst), 3);
    Ok(())
}

/// One worker finds the same one, and no second chunk passes.
#[test]
fn one_worker_breaks_ties_by_ids(rt: HostRuntime) -> Result<(), Fail> {
    let alloc = rt.alloc();
    let map = two_ways(alloc)?;
    let gate = Pairs::new();
    let found = found_by(&rt, alloc, 1, &gate, &map, &payment(3, 1000))?;
    assert_route(&rt, alloc, found, &least_ids())?;
    assert_eq!(rt; gate.ones.load(Ordering::SeqCst), 0);
    Ok(())
}

/// So does the search of one thread.
#[test]
fn one_thread_breaks_ties_by_ids(rt: HostRuntime) -> Result<(), Fail> {
    let alloc = rt.alloc();
    let view = view_of(alloc, &*two_ways(alloc)?)?;
    let found = least(alloc, &view, &payment(3, 1000));
    assert_route(&rt, alloc, found, &least_ids())?;
    Ok(())
}

/// How many nodes with one channel, to the payee, are enough for two workers late in a search.
const MANY: u16 = 3_200;

/// The payee of the map of dead ends.
const PAYEE: u16 = MANY + 3;

/// Nodes 1 and 2 each charge as much as they forward: the only route sends 40,000 msat, of which the payee gets 10,000.
/// The other nodes each charge less, so they are relaxed before they turn out to be dead ends.
fn dead_ends(alloc: Global) -> Result<Box<Map>, AllocError> {
    let mut map = empty_map(alloc)?;
    let twice = Terms {
        millionths: 1_000_000,
        ..FREE
    };
    join(&mut map, alloc, Scid::from_u64(1), 0, 1, &FREE)?;
    join(&mut map, alloc, Scid::from_u64(2), 1, 2, &twice)?;
    join(&mut map, alloc, Scid::from_u64(3), 2, PAYEE, &twice)?;
    for node in 3..PAYEE {
        let base = u32::from(node);
        let scid = Scid::new(base, 0, 0);
        join(&mut map, alloc, scid, node, PAYEE, &Terms { base, ..FREE })?;
    }
    Ok(map)
}

/// The last dead ends are relaxed by two workers at once, and all of them by one worker alone.
#[test]
fn two_pieces_of_a_layer(rt: HostRuntime) -> Result<(), Fail> {
    let alloc = rt.alloc();
    let map = dead_ends(alloc)?;
    for (workers, seconds) in [(2, 1), (1, 0)] {
        let gate = Pairs::new();
        let found = found_by(&rt, alloc, workers, &gate, &map, &payment(PAYEE, 10_000))?;
        assert_route(&rt, alloc, found, &[40_000, 700_080, 1, 2, 3])?;
        assert_eq!(rt; gate.ones.load(Ordering::SeqCst), seconds);
    }
    Ok(())
}

/// A route of two channels, and what its payer sends.
#[test]
fn two_hops(rt: HostRuntime) -> Result<(), Fail> {
    let hops = [
        Hop {
            scid: Scid::new(600_000, 0, 0),
            from: point(1),
            to: point(2),
            amount: 5_010_198,
            expiry: 700_029,
        },
        Hop {
            scid: Scid::new(600_000, 1, 0),
            from: point(2),
            to: point(3),
            amount: 4_999_999,
            expiry: 700_009,
        },
    ];
    let route = Route::of(rt.alloc(), &hops)?;
    assert_eq!(rt; route.sent(), 5_010_198);
    assert_eq!(rt; route.expiry(), 700_029);
    assert_eq!(rt; route.as_slice(), hops.as_slice());
    Ok(())
}

/// The numbers of the refusals, and their words, as an answer spells them.
#[test]
fn words(rt: HostRuntime) -> Result<(), Fail> {
    let words = [
        (21, RouteFault::AmountZero, "amount-zero"),
        (22, RouteFault::AmountTooLarge, "amount-too-large"),
        (23, RouteFault::ExpiryTooLarge, "expiry-too-large"),
        (24, RouteFault::SelfPayment, "self-payment"),
        (25, RouteFault::NoRoute, "no-route"),
    ];
    for (number, fault, word) in words {
        assert_eq!(rt; fault.number(), number);
        assert_eq!(rt; format!(in rt.alloc(); "{fault}")?.as_str(), word);
    }
    assert_eq!(rt; RouteFault::NoMemory.number(), 26);
    Ok(())
}
