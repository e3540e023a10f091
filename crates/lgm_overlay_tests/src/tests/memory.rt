//! Payments if memory is refused. To be run with each allocation refused in turn.

ghost use Rattle.std.specs.Prelude.{◌+◌, ◌*◌, ◌^◌, ◌<◌, length};
ghost use Rattle.lgm_graph.specs.Graph.{IsGraphOf};

use super::made::{Parts, estimates_of, free, map_of, overlay_of};
use super::paid::{Asked, Told, assert_answer, payment, route_of, two_ways};
use lgm_graph::{Known, Overlay, View};
use lgm_route::{Preferences, Route, RouteFault, Search, SearchFault, find_over};
use lgm_store::Map;
use std::alloc::Global;
use std::process::Abort;

/// Over an own channel, two channels of the map, and a hint. It delays by 120 blocks.
const WANTED: [Told; 4] = [
    (90, 9, 0, 1013, 700_120),
    (1, 0, 1, 1010, 700_080),
    (2, 1, 3, 1000, 700_040),
    (91, 3, 10, 1000, 700_000),
];

/// What the payer prefers.
const PREFERENCES: Preferences = Preferences {
    failure_msat: 20_000,
    hop_msat: 500,
};

/// The same, within a delay.
fn preferring(most_delay: u16) -> Asked {
    Asked {
        preferences: PREFERENCES,
        ..Asked::within(most_delay, 100)
    }
}

/// The answer to the payment; if memory is refused, that of the next call.
fn answer_or_again(
    rt: &impl Abort,
    alloc: Global,
    map: &Map,
    view: &View,
    overlay: &Overlay,
    search: &Search<'_>,
) -> Result<Route, SearchFault>
    requires beside { IsGraphOf map.now view.now }
    requires few { length view.now.points + 2 * length overlay.now.extra < 2 ^ 32 }
{
    let request = payment(9, 10);
    for _call in 0..2 {
        let found = find_over(alloc, map, view, overlay, search, &request);
        let answer = route_of(rt, found, true);
        if !matches!(answer, Err(SearchFault::Fault(RouteFault::NoMemory))) {
            return answer;
        }
    }
    Err(SearchFault::Fault(RouteFault::NoMemory))
}

#[test]
fn refused_memory(rt: HostRuntime) {
    let alloc = rt.alloc();
    let Ok(map) = map_of(alloc, &two_ways()) else {
        return;
    };
    assert!(rt; map.count() <= 1_000_000);
    let Ok(view) = View::of(alloc, &map, &Known::all()) else {
        return;
    };
    let parts = Parts {
        extra: &[free(90, 9, 0), free(91, 3, 10)],
        limits: &[(1, 0, 1100)],
        silent: &[2],
    };
    let Ok(overlay) = overlay_of(alloc, parts) else {
        return;
    };
    assert!(rt; overlay.extra_count() <= 1_000_000);
    let (Ok(nothing), Ok(learnt)) = (
        estimates_of(alloc, &[]),
        estimates_of(alloc, &[(2, 1, 900, 1_100, 7), (91, 3, 0, 999, 0)]),
    ) else {
        return;
    };
    let none = Err(SearchFault::Fault(RouteFault::NoRoute));
    for (asked, estimates, wanted) in [
        (Asked::anyhow(), &nothing, Ok(WANTED.as_slice())),
        (Asked::within(120, 100), &nothing, Ok(WANTED.as_slice())),
        (Asked::within(119, 100), &nothing, none),
        (preferring(120), &learnt, Ok(WANTED.as_slice())),
        (preferring(119), &learnt, none),
    ] {
        let search = asked.search(estimates);
        let answer = answer_or_again(&rt, alloc, &map, &view, &overlay, &search);
        if assert_answer(&rt, alloc, &answer, wanted).is_err() {
            return;
        }
    }
}
