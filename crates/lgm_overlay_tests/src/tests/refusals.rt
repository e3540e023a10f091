//! Refusals, which come before all else.

use super::made::{Parts, free, map_of};
use super::paid::{assert_over, two_ways};
use lgm_graph::Known;
use lgm_route::{Request, RouteFault};
use lgm_test_gossip::point;
use std::test::Fail;

#[test]
fn refusals_are_in_order(rt: HostRuntime) -> Result<(), Fail> {
    let alloc = rt.alloc();
    let most = 2_100_000_000_000_000_000;
    let map = map_of(alloc, &two_ways())?;
    let parts = Parts {
        extra: &[free(80, 0, 0), free(81, 0, 8), free(82, 8, 0)],
        limits: &[(80, 0, 0)],
        silent: &[1],
    };
    let rows = [
        (0, 0, 498_000_001, RouteFault::AmountZero),
        (0, most + 1, 498_000_001, RouteFault::AmountTooLarge),
        (0, most, 498_000_001, RouteFault::ExpiryTooLarge),
        (0, 1000, 498_000_000, RouteFault::SelfPayment),
        (77, 1000, 498_000_000, RouteFault::NoRoute),
        (3, most, 498_000_000, RouteFault::NoRoute),
    ];
    for (payee, amount, expiry, fault) in rows {
        let request = Request {
            payer: point(0),
            payee: point(payee),
            amount,
            expiry,
        };
        assert_over(&rt, alloc, &map, &Known::all(), parts, &request, Err(fault))?;
    }
    Ok(())
}
