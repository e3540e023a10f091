//! Payments within limits of the delay: the sum of the deltas of a route's channels behind the first.

use super::made::{NOTHING, Parts, Way, free, items_of, map_of};
use super::paid::{Asked, Told, assert_within, payment};
use lgm_graph::Known;
use lgm_route::{RouteFault, SearchFault};
use lgm_test_gossip::{FREE, Terms};
use std::alloc::{AllocError, Global};
use std::process::Abort;
use std::test::Fail;

const NO_ROUTE: Result<&[Told], SearchFault> = Err(SearchFault::Fault(RouteFault::NoRoute));

pub const UNDECIDED: Result<&[Told], SearchFault> = Err(SearchFault::Undecided);

/// A direction with a base fee and a delta.
pub fn way(id: u64, from: u16, to: u16, base: u32, delta: u16) -> Way {
    let terms = Terms {
        base,
        delta,
        ..FREE
    };
    Way {
        terms,
        ..free(id, from, to)
    }
}

/// That 1,000 msat over these directions and an overlay within a delay get this answer, with at most so many labels.
fn assert_answered(
    rt: &impl Abort,
    alloc: Global,
    ways: &[Way],
    parts: Parts,
    ends: (u16, u16),
    limit: (u16, usize),
    wanted: Result<&[Told], SearchFault>,
) -> Result<(), AllocError> {
    let items = items_of(alloc, ways)?;
    let map = map_of(alloc, items.as_slice())?;
    let request = payment(ends.0, ends.1);
    let (known, asked) = (Known::all(), Asked::within(limit.0, limit.1));
    assert_within(rt, alloc, &map, &known, parts, &request, &asked, wanted)
}

/// Over node 1 the payment costs nothing and delays by 100 blocks, over node 2 it costs 5 msat and delays by 10. The
/// payer's own channels delay by 500, which doesn't count.
fn cheap_or_quick() -> [Way; 4] {
    [
        way(1, 0, 1, 9, 500),
        way(2, 1, 3, 0, 100),
        way(3, 0, 2, 9, 500),
        way(4, 2, 3, 5, 10),
    ]
}

const CHEAP: [Told; 2] = [(1, 0, 1, 1000, 700_100), (2, 1, 3, 1000, 700_000)];

const QUICK: [Told; 2] = [(3, 0, 2, 1005, 700_010), (4, 2, 3, 1000, 700_000)];

#[test]
fn the_cheapest_in_time(rt: HostRuntime) -> Result<(), Fail> {
    let alloc = rt.alloc();
    let ways = cheap_or_quick();
    for most in [65_535, 100] {
        assert_answered(&rt, alloc, &ways, NOTHING, (0, 3), (most, 1000), Ok(&CHEAP))?;
    }
    for most in [99, 10] {
        assert_answered(&rt, alloc, &ways, NOTHING, (0, 3), (most, 1000), Ok(&QUICK))?;
    }
    for most in [9, 0] {
        assert_answered(&rt, alloc, &ways, NOTHING, (0, 3), (most, 1000), NO_ROUTE)?;
    }
    Ok(())
}

/// One label is that of the payee, and one that of node 2, before which there is no route so far. Without a search none is
/// needed.
#[test]
fn undecided_once_there_are_that_many_labels(rt: HostRuntime) -> Result<(), Fail> {
    let alloc = rt.alloc();
    let ways = cheap_or_quick();
    assert_answered(&rt, alloc, &ways, NOTHING, (0, 3), (100, 0), Ok(&CHEAP))?;
    assert_answered(&rt, alloc, &ways, NOTHING, (0, 3), (99, 1), UNDECIDED)?;
    assert_answered(&rt, alloc, &ways, NOTHING, (0, 3), (99, 2), Ok(&QUICK))?;
    assert_answered(&rt, alloc, &ways, NOTHING, (0, 3), (9, 1), NO_ROUTE)?;
    Ok(())
}

/// From node 2 on the cheaper rest delays by 60 blocks and the other one by 10. Both are needed, since the channel to
/// node 2 delays by 50.
#[test]
fn a_dearer_rest_is_needed(rt: HostRuntime) -> Result<(), Fail> {
    let alloc = rt.alloc();
    let ways = [
        way(1, 0, 1, 0, 0),
        way(2, 1, 2, 0, 50),
        way(3, 2, 3, 0, 0),
        way(4, 3, 5, 0, 60),
        way(5, 2, 4, 0, 0),
        way(6, 4, 5, 5, 10),
    ];
    let cheap: [Told; 4] = [
        (1, 0, 1, 1000, 700_110),
        (2, 1, 2, 1000, 700_060),
        (3, 2, 3, 1000, 700_060),
        (4, 3, 5, 1000, 700_000),
    ];
    let quick: [Told; 4] = [
        (1, 0, 1, 1005, 700_060),
        (2, 1, 2, 1005, 700_010),
        (5, 2, 4, 1005, 700_010),
        (6, 4, 5, 1000, 700_000),
    ];
    assert_answered(&rt, alloc, &ways, NOTHING, (0, 5), (110, 100), Ok(&cheap))?;
    for most in [109, 60] {
        assert_answered(&rt, alloc, &ways, NOTHING, (0, 5), (most, 100), Ok(&quick))?;
    }
    assert_answered(&rt, alloc, &ways, NOTHING, (0, 5), (59, 100), NO_ROUTE)?;
    Ok(())
}

/// Ten nodes in a row, two channels between neighbours: a free one that delays by 65,535 blocks, and one that charges
/// 1 msat and delays by 40.
#[test]
fn each_cheapest_channel_is_the_slowest(rt: HostRuntime) -> Result<(), Fail> {
    let alloc = rt.alloc();
    let mut ways = Vec::new(alloc);
    let mut hops = Vec::new(alloc);
    for node in 0..9u16 {
        let (id, left) = (u64::from(node) * 2, 8 - u32::from(node));
        ways.push(way(id, node, node + 1, 0, 65_535))?;
        ways.push(way(id + 1, node, node + 1, 1, 40))?;
        let over = if node == 0 { id } else { id + 1 };
        hops.push((
            over,
            node,
            node + 1,
            1000 + u64::from(left),
            700_000 + left * 40,
        ))?;
    }
    for most in [1008, 320] {
        assert_answered(&rt, alloc, &ways, NOTHING, (0, 9), (most, 100), Ok(&hops))?;
    }
    assert_answered(&rt, alloc, &ways, NOTHING, (0, 9), (319, 100), NO_ROUTE)?;
    Ok(())
}

/// A channel that delays by all of 288 blocks, and behind it eight pairs of channels: a free one that delays by 1, 2, 4 ..
/// 128 blocks, and one that charges as many msat. From the payee on there are 511 ways of which none is cheaper and
/// quicker than another; lower bounds on the delay from the payer leave one for each node.
#[test]
fn what_cannot_be_in_time_is_pruned(rt: HostRuntime) -> Result<(), Fail> {
    let alloc = rt.alloc();
    let mut ways = Vec::new(alloc);
    let mut hops = Vec::new(alloc);
    ways.push(way(1, 0, 1, 0, 0))?;
    ways.push(way(2, 1, 2, 0, 288))?;
    hops.push((1, 0, 1, 1255, 700_288))?;
    hops.push((2, 1, 2, 1255, 700_000))?;
    let mut amount: u64 = 1255;
    for stage in 0..8u16 {
        let (id, node, blocks) = (10 + 2 * u64::from(stage), 2 + stage, 1u16 << stage);
        ways.push(way(id, node, node + 1, 0, blocks))?;
        ways.push(way(id + 1, node, node + 1, u32::from(blocks), 0))?;
        amount = amount.saturating_sub(u64::from(blocks));
        hops.push((id + 1, node, node + 1, amount, 700_000))?;
    }
    let wanted = Ok(hops.as_slice());
    assert_answered(&rt, alloc, &ways, NOTHING, (0, 10), (288, 16), wanted)?;
    Ok(())
}

/// Over an overlay its edges are the ones that count, with their deltas.
#[test]
fn within_a_delay_over_an_overlay(rt: HostRuntime) -> Result<(), Fail> {
    let alloc = rt.alloc();
    let hint = [way(90, 1, 3, 2, 30)];
    let parts = Parts {
        extra: &hint,
        limits: &[],
        silent: &[2],
    };
    let hinted: [Told; 2] = [(1, 0, 1, 1002, 700_030), (90, 1, 3, 1000, 700_000)];
    let ways = cheap_or_quick();
    assert_answered(&rt, alloc, &ways, parts, (0, 3), (100, 100), Ok(&CHEAP))?;
    for most in [99, 30] {
        assert_answered(&rt, alloc, &ways, parts, (0, 3), (most, 100), Ok(&hinted))?;
    }
    assert_answered(&rt, alloc, &ways, parts, (0, 3), (29, 100), NO_ROUTE)?;
    Ok(())
}
