//! Parts, and what is sent next.

use super::made::{BOUNDS, edge, invoice, next_part, payer, payer_without, two_ways};
use super::script::{Step, run, run_two_ways};
use lgm_gossip::Scid;
use lgm_graph::{Estimate, Estimates, Hop, Route};
use lgm_odds::route_odds;
use lgm_payer::{Bounds, Unfound, Unpaid};
use lgm_route::{RouteFault, SearchFault};
use lgm_test_gossip::{Item, map_of, point, up_to};
use std::test::Fail;

const NO_ROUTE: Unpaid = Unpaid::Unfound(Unfound::Search(SearchFault::Fault(RouteFault::NoRoute)));

/// The payer's channels can send this much, in msat, which is less than what is left.
fn short(room: u64) -> Unpaid {
    Unpaid::Unfound(Unfound::Short(room))
}

#[test]
fn one_part_arrives(rt: HostRuntime) -> Result<(), Fail> {
    let steps = [
        Step::Next(0, 2_000, 0, Ok(Some(0))),
        Step::Next(0, 2_000, 0, Ok(None)),
        Step::Part(0, 1_000, 13, 2),
        Step::State(false, 0, 13),
        Step::Fulfilled(0, Ok(())),
        Step::State(true, 0, 13),
        Step::Next(0, 2_000, 0, Ok(None)),
    ];
    run_two_ways(&rt, rt.alloc(), BOUNDS, &steps)
}

/// Node 1 has too low a balance: an estimate is kept, and the edge before it carried 1,010 msat.
#[test]
fn a_balance_fails(rt: HostRuntime) -> Result<(), Fail> {
    let alloc = rt.alloc();
    let map = map_of(alloc, &two_ways())?;
    let mut payer = payer(alloc, BOUNDS)?;
    let steps = [
        Step::Next(0, 2_000, 0, Ok(Some(0))),
        Step::Failed(0, 0, 2, 0x1007, Ok(())),
    ];
    run(&rt, alloc, &mut payer, &map, &steps);
    let failed = payer.learnt().get(Scid::from_u64(2), &point(1));
    assert_eq!(rt; (failed.least, failed.most), (0, 999));
    let carried = payer.learnt().get(Scid::from_u64(1), &point(0));
    assert_eq!(rt; (carried.least, carried.most), (1_010, u64::MAX));
    Ok(())
}

/// Each way carries 600 msat, so the whole has no route. Half of it fails with odds of 500 to 101, but no smaller part
/// is allowed. Then half of what is left has odds of 250 to 351, and so has the rest. The payee holds all three until
/// they came.
#[test]
fn the_amount_is_divided(rt: HostRuntime) -> Result<(), Fail> {
    let alloc = rt.alloc();
    let items = [
        Item::Channel(1, 0, 3),
        Item::Update(up_to(1, 0, 3, 600)),
        Item::Channel(2, 0, 3),
        Item::Update(up_to(2, 0, 3, 600)),
    ];
    let map = map_of(alloc, &items)?;
    let mut payer = payer(alloc, BOUNDS)?;
    let Some(first) = next_part(&rt, alloc, &mut payer, 0, &map, 1_000, 0)? else {
        return Err(Fail::from("nothing was sent"));
    };
    assert_eq!(rt;
        (first.part.number, first.is_best, first.odds),
        (0, true, 4_950_495)
    );
    assert_eq!(rt; first.payloads.as_slice().len(), 2);
    let steps = [
        Step::Next(0, 1_000, 0, Ok(Some(1))),
        Step::Next(0, 1_000, 0, Ok(Some(2))),
        Step::Next(0, 1_000, 0, Ok(None)),
        Step::Part(0, 500, 0, 1),
        Step::Part(1, 250, 0, 1),
        Step::Part(2, 250, 0, 1),
        Step::Fulfilled(0, Ok(())),
        Step::State(true, 0, 0),
    ];
    run(&rt, alloc, &mut payer, &map, &steps);
    Ok(())
}

/// The payer's channel could send 2,020 msat before the first payment's part of 1,013: beside that it has 1,007 left,
/// and of 2,000 it has less than the amount. Once the part is reckoned it can send what is told, and once it has failed
/// it can again. Nobody knows which hop failed, so the next one goes over node 2.
#[test]
fn nothing_is_promised_twice(rt: HostRuntime) -> Result<(), Fail> {
    let bounds = Bounds {
        most_parts: 1,
        ..BOUNDS
    };
    let steps = [
        Step::Begin(bounds, Ok(1)),
        Step::Next(0, 2_020, 0, Ok(Some(0))),
        Step::Next(1, 2_020, 0, Err(NO_ROUTE)),
        Step::Next(1, 2_000, 0, Err(short(987))),
        Step::Next(1, 1_013, 1, Ok(Some(1))),
        Step::Unreadable(1, 1, Ok(())),
        Step::Unreadable(0, 0, Ok(())),
        Step::Next(1, 1_500, 0, Ok(Some(2))),
    ];
    run_two_ways(&rt, rt.alloc(), bounds, &steps)
}

/// Once the payee took the whole its part is still deducted from what was told before; and a payment that is forgotten
/// has to be reckoned.
#[test]
fn what_arrived_is_deducted(rt: HostRuntime) -> Result<(), Fail> {
    let bounds = Bounds {
        most_parts: 1,
        ..BOUNDS
    };
    let steps = [
        Step::Begin(bounds, Ok(1)),
        Step::Next(0, 1_500, 0, Ok(Some(0))),
        Step::Fulfilled(0, Ok(())),
        Step::Next(1, 1_500, 0, Err(short(487))),
        Step::Forget(0, Ok(())),
        Step::Next(1, 1_500, 0, Err(Unpaid::ReckonedBefore)),
        Step::Next(1, 1_013, 1, Ok(Some(1))),
    ];
    run_two_ways(&rt, rt.alloc(), bounds, &steps)
}

/// The invoice names an edge from the payer to the payee: the payer has none.
#[test]
fn no_hint_leaves_the_payer(rt: HostRuntime) -> Result<(), Fail> {
    let alloc = rt.alloc();
    let map = map_of(alloc, &two_ways())?;
    let mut payer = payer_without(alloc)?;
    let hints = [edge(90, 9, 3, 5_000)];
    let records = Vec::new(alloc);
    payer.begin(alloc, invoice(1_000), &hints, None, records, BOUNDS)?;
    run(
        &rt,
        alloc,
        &mut payer,
        &map,
        &[Step::Next(0, 50, 0, Err(short(50)))],
    );
    Ok(())
}

/// The payee has two channels of 100,000 satoshis.
#[test]
fn the_payee_gets_too_little(rt: HostRuntime) -> Result<(), Fail> {
    let alloc = rt.alloc();
    let map = map_of(alloc, &two_ways())?;
    let mut payer = payer_without(alloc)?;
    let records = Vec::new(alloc);
    payer.begin(alloc, invoice(200_000_001), &[], None, records, BOUNDS)?;
    let cut = Unpaid::Unfound(Unfound::PayeeShort(200_000_000));
    run(
        &rt,
        alloc,
        &mut payer,
        &map,
        &[Step::Next(0, 1_000_000_000, 0, Err(cut))],
    );
    Ok(())
}

/// A channel of 100,000 satoshis joins two hubs. The payer's channel with one of them can send ten times as much, and the
/// other hub forwards that to the payee.
#[test]
fn a_thin_channel_joins_two_hubs(rt: HostRuntime) -> Result<(), Fail> {
    let alloc = rt.alloc();
    let items = [
        Item::Channel(1, 0, 1),
        Item::Update(up_to(1, 0, 1, 100_000_000)),
    ];
    let map = map_of(alloc, &items)?;
    let mut payer = payer_without(alloc)?;
    let hints = [edge(91, 1, 3, 1_000_000_000)];
    let records = Vec::new(alloc);
    payer.begin(alloc, invoice(100_000_001), &hints, None, records, BOUNDS)?;
    let cut = Unpaid::Unfound(Unfound::PathsShort(100_000_000));
    run(
        &rt,
        alloc,
        &mut payer,
        &map,
        &[Step::Next(0, 1_000_000_000, 0, Err(cut))],
    );
    Ok(())
}

/// A hop of a route, of 1,000 msat.
fn hop(scid: u64, from: u16, to: u16) -> Hop {
    Hop {
        scid: Scid::from_u64(scid),
        from: point(from),
        to: point(to),
        amount: 1_000,
        expiry: 200,
    }
}

/// The hop after the payer's own carries from 999 to 1,200 msat: odds of 1 to 201. Of one of which nothing is known
/// that carries up to 3,000 they are 1,000 to 2,001, and of one that carries less than the amount 100 to 1.
#[test]
fn odds_of_a_route(rt: HostRuntime) -> Result<(), Fail> {
    let alloc = rt.alloc();
    let map = map_of(alloc, &[])?;
    let route = Route::of(alloc, &[hop(90, 9, 0), hop(1, 0, 1)])?;
    let mut estimates = Estimates::new(alloc);
    let known = Estimate {
        least: 999,
        most: 1_200,
        penalty: 0,
    };
    estimates.set(Scid::from_u64(1), &point(0), known)?;
    let extra = [edge(1, 0, 1, 3_000)];
    assert_eq!(rt; route_odds(&map, &extra, &[], &estimates, &route), 4_975);
    let nothing = Estimates::new(alloc);
    assert_eq!(rt; route_odds(&map, &extra, &[], &nothing, &route), 499_750);
    assert_eq!(rt; route_odds(&map, &[], &[], &nothing, &route), 100_000_000);
    Ok(())
}
