//! Payments by what their payer prefers, and searches whose budget runs out.

use super::delays::{UNDECIDED, way};
use super::made::{NOTHING, Way, charging, estimates_of, free, items_of, map_of};
use super::paid::{Asked, Told, assert_answer, found_over, payment, route_of};
use lgm_graph::{Estimates, Known};
use lgm_route::{Preferences, RouteLimits, SearchBudget, SearchFault};
use lgm_test_gossip::{FREE, Terms};
use std::alloc::{AllocError, Global};
use std::process::Abort;
use std::test::Fail;

/// Each failed try is worth 1 msat, and each hop 1 msat.
fn asked(most_labels: usize, most_steps: u64) -> Asked {
    Asked {
        preferences: Preferences {
            failure_msat: 1,
            hop_msat: 1,
        },
        limits: RouteLimits::none(),
        budget: SearchBudget {
            most_labels,
            most_steps,
        },
    }
}

/// That 1,000 msat over these directions get this answer. A route has to be told as the best one, or as one so far.
fn assert_preferred(
    rt: &impl Abort,
    alloc: Global,
    ways: &[Way],
    payee: u16,
    estimates: &Estimates,
    asked: &Asked,
    is_best: bool,
    wanted: Result<&[Told], SearchFault>,
) -> Result<(), AllocError> {
    let map = map_of(alloc, &items_of(alloc, ways)?)?;
    let (known, request) = (Known::all(), payment(0, payee));
    let answer = found_over(rt, alloc, &map, &known, NOTHING, estimates, &request, asked)?;
    assert_answer(rt, alloc, &route_of(rt, answer, is_best), wanted)
}

/// Node 1 charges 10 msat, node 2 charges 50 msat. A penalty of 40 msat is a tie, and the ids are lesser over node 1; one
/// that failed has a penalty of 100 msat, the odds of 100 to 1, until it carries as much.
#[test]
fn an_estimate_turns_a_payment(rt: HostRuntime) -> Result<(), Fail> {
    let alloc = rt.alloc();
    let ways = [
        charging(1, 0, 1, 0),
        charging(2, 1, 3, 10),
        charging(3, 0, 2, 0),
        charging(4, 2, 3, 50),
    ];
    let over_1: [Told; 2] = [(1, 0, 1, 1010, 700_040), (2, 1, 3, 1000, 700_000)];
    let over_2: [Told; 2] = [(3, 0, 2, 1050, 700_040), (4, 2, 3, 1000, 700_000)];
    for (least, most, penalty, wanted) in [
        (0, u64::MAX, 0, over_1),
        (0, u64::MAX, 40, over_1),
        (0, u64::MAX, 41, over_2),
        (0, 999, 0, over_2),
        (1000, 1000, 0, over_1),
    ] {
        let estimates = estimates_of(alloc, &[(2, 1, least, most, penalty)])?;
        let asked = asked(100, 100);
        assert_preferred(&rt, alloc, &ways, 3, &estimates, &asked, true, Ok(&wanted))?;
    }
    Ok(())
}

/// Over two channels: a step for each of the two labels that are settled, one for each edge into their nodes, and one for the
/// comparison of a new label of the node between with the one that it has. The first walk is found ahead of them, and takes
/// the label of the payee and that one.
#[test]
fn steps_of_a_search(rt: HostRuntime) -> Result<(), Fail> {
    let alloc = rt.alloc();
    let ways = [way(1, 0, 1, 0, 40), way(2, 1, 2, 5, 40)];
    let route: [Told; 2] = [(1, 0, 1, 1005, 700_040), (2, 1, 2, 1000, 700_000)];
    let found = Ok(route.as_slice());
    for (most_labels, most_steps, is_best, wanted) in [
        (2, 5, true, found),
        (2, 4, false, found),
        (2, 0, false, found),
        (1, 5, true, UNDECIDED),
    ] {
        let (estimates, asked) = (estimates_of(alloc, &[])?, asked(most_labels, most_steps));
        assert_preferred(&rt, alloc, &ways, 2, &estimates, &asked, is_best, wanted)?;
    }
    Ok(())
}

/// For 1,000 msat alone nodes 1 and 2 would charge as much each, and node 4 charges 2,500 msat. So the first walk is over
/// nodes 1 and 2, which charge 3,000 msat together; it takes the labels of the payee and of these, and no step. The best
/// one takes the label of node 4 too, and the steps of three labels that are settled, of the two edges into the payee, the one
/// into node 2 and the one into node 4, and of the comparisons of new labels of nodes 2 and 1 with those that they have.
#[test]
fn a_route_so_far(rt: HostRuntime) -> Result<(), Fail> {
    let alloc = rt.alloc();
    let terms = Terms {
        millionths: 1_000_000,
        ..FREE
    };
    let [second, third] = [free(2, 1, 2), free(3, 2, 5)];
    let ways = [
        charging(1, 0, 1, 0),
        Way { terms, ..second },
        Way { terms, ..third },
        charging(4, 0, 4, 0),
        charging(5, 4, 5, 2_500),
    ];
    let first: [Told; 3] = [
        (1, 0, 1, 4000, 700_080),
        (2, 1, 2, 2000, 700_040),
        (3, 2, 5, 1000, 700_000),
    ];
    let best: [Told; 2] = [(4, 0, 4, 3500, 700_040), (5, 4, 5, 1000, 700_000)];
    for (most_labels, most_steps, is_best, wanted) in [
        (4, 9, true, Ok(best.as_slice())),
        (4, 8, false, Ok(first.as_slice())),
        (4, 0, false, Ok(first.as_slice())),
        (3, 9, false, Ok(first.as_slice())),
        (2, 9, true, UNDECIDED),
    ] {
        let (estimates, asked) = (estimates_of(alloc, &[])?, asked(most_labels, most_steps));
        assert_preferred(&rt, alloc, &ways, 5, &estimates, &asked, is_best, wanted)?;
    }
    Ok(())
}
