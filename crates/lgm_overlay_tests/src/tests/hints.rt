//! Extra edges: a payer's own channels, and the hints of an invoice.

use super::made::{Item, NOTHING, Parts, Way, free, map_of, row, up_to};
use super::paid::{OVER_1, OVER_2, Told, assert_over, assert_paid, payment, two_ways};
use lgm_graph::Known;
use lgm_route::RouteFault;
use lgm_test_gossip::{FREE, Terms};
use std::test::Fail;

/// A hint from node 3 to node 10: 100 msat and 1 % of the amount, and 144 blocks.
const HINT: Way = Way {
    id: 91,
    from: 3,
    to: 10,
    terms: Terms {
        base: 100,
        millionths: 10_000,
        delta: 144,
        ..FREE
    },
};

/// Node 9 isn't in the map, so node 0 is paid 3 msat.
#[test]
fn own_channels_of_an_unknown_payer(rt: HostRuntime) -> Result<(), Fail> {
    let parts = Parts {
        extra: &[free(90, 9, 0)],
        ..NOTHING
    };
    let wanted = [
        (90, 9, 0, 1013, 700_080),
        (1, 0, 1, 1010, 700_040),
        (2, 1, 3, 1000, 700_000),
    ];
    assert_paid(&rt, rt.alloc(), &two_ways(), parts, (9, 3), &wanted)?;
    assert_paid(&rt, rt.alloc(), &two_ways(), NOTHING, (9, 3), &[])
}

/// Node 10 isn't in the map. Node 3 is paid 110 msat.
#[test]
fn a_hint_reaches_an_unknown_payee(rt: HostRuntime) -> Result<(), Fail> {
    let parts = Parts {
        extra: &[HINT],
        ..NOTHING
    };
    let wanted = [
        (1, 0, 1, 1120, 700_184),
        (2, 1, 3, 1110, 700_144),
        (91, 3, 10, 1000, 700_000),
    ];
    assert_paid(&rt, rt.alloc(), &two_ways(), parts, (0, 10), &wanted)?;
    assert_paid(&rt, rt.alloc(), &two_ways(), NOTHING, (0, 10), &[])
}

/// The payer pays itself: node 11 stands for it, behind its channel with node 1. Its other channel with that node, where
/// the payment would begin, is excluded.
#[test]
fn a_circular_payment(rt: HostRuntime) -> Result<(), Fail> {
    let parts = Parts {
        extra: &[Way {
            id: 1,
            from: 1,
            to: 11,
            terms: Terms { base: 7, ..FREE },
        }],
        limits: &[(1, 0, 0)],
        ..NOTHING
    };
    let wanted = [
        (3, 0, 2, 1077, 700_120),
        (4, 2, 3, 1027, 700_080),
        (2, 3, 1, 1007, 700_040),
        (1, 1, 11, 1000, 700_000),
    ];
    assert_paid(&rt, rt.alloc(), &two_ways(), parts, (0, 11), &wanted)
}

/// Both hints have the id 50, and another one that of a channel of two other nodes.
#[test]
fn one_id_out_of_several_nodes(rt: HostRuntime) -> Result<(), Fail> {
    let extra = [free(50, 1, 8), free(50, 2, 9), free(2, 2, 12)];
    let (to_1, to_2): (Told, Told) = ((1, 0, 1, 1000, 700_040), (3, 0, 2, 1000, 700_040));
    let rows: [(&[(u64, u16, u64)], u16, &[Told]); 6] = [
        (&[], 8, &[to_1, (50, 1, 8, 1000, 700_000)]),
        (&[], 9, &[to_2, (50, 2, 9, 1000, 700_000)]),
        (&[], 12, &[to_2, (2, 2, 12, 1000, 700_000)]),
        (&[], 3, &OVER_1),
        (&[(50, 1, 0)], 9, &[to_2, (50, 2, 9, 1000, 700_000)]),
        (&[(50, 1, 0)], 8, &[]),
    ];
    for (limits, payee, wanted) in rows {
        let parts = Parts {
            extra: &extra,
            limits,
            ..NOTHING
        };
        assert_paid(&rt, rt.alloc(), &two_ways(), parts, (0, payee), wanted)?;
    }
    Ok(())
}

/// A way from node 0 to node 3, with the id 70.
fn direct(max: u64) -> Way {
    up_to(70, 0, 3, max)
}

#[test]
fn the_first_of_two_extra_edges_counts(rt: HostRuntime) -> Result<(), Fail> {
    let rows: [(&[Way], &[Told]); 5] = [
        (&[direct(1000), direct(999)], &[(70, 0, 3, 1000, 700_000)]),
        (&[direct(999), direct(1000)], &OVER_1),
        (&[free(70, 0, 8), direct(1000)], &OVER_1),
        // It replaces the map's edge, also where it carries less.
        (&[direct(999), free(1, 0, 8), free(1, 0, 1)], &OVER_2),
        (&[free(1, 0, 8), free(3, 0, 8), free(3, 0, 2)], &[]),
    ];
    for (extra, wanted) in rows {
        let parts = Parts { extra, ..NOTHING };
        assert_paid(&rt, rt.alloc(), &two_ways(), parts, (0, 3), wanted)?;
    }
    Ok(())
}

/// Node 4 requires bit 0, and no bit is known: it isn't paid and forwards nothing, but pays. An extra edge to it still
/// counts as the first of its id.
#[test]
fn features_are_asked_of_the_nodes_of_extra_edges(rt: HostRuntime) -> Result<(), Fail> {
    let alloc = rt.alloc();
    let items = [
        Item::Channel(1, 0, 3),
        Item::Channel(2, 3, 4),
        Item::Update(free(2, 4, 3)),
        Item::Node(4),
    ];
    let map = map_of(alloc, &items)?;
    let extra = [free(60, 0, 4), free(61, 4, 8), free(60, 0, 8)];
    let parts = Parts {
        extra: &extra,
        ..NOTHING
    };
    let direct: &[Told] = &[(60, 0, 4, 1000, 700_000)];
    let through: &[Told] = &[(60, 0, 4, 1000, 700_040), (61, 4, 8, 1000, 700_000)];
    let from: &[Told] = &[(61, 4, 8, 1000, 700_000)];
    let rows = [((0, 4), direct), ((0, 8), through), ((4, 8), from)];
    for ((payer, payee), wanted) in rows {
        let request = payment(payer, payee);
        assert_over(&rt, alloc, &map, &Known::all(), parts, &request, Ok(wanted))?;
        let known = Known::bits(alloc, &[0])?;
        let none = Err(RouteFault::NoRoute);
        let wanted = if payer == 4 { Ok(wanted) } else { none };
        assert_over(&rt, alloc, &map, &known, parts, &request, wanted)?;
    }
    Ok(())
}

/// A row of channels from node 1 on, with an extra edge before it and one behind it.
#[test]
fn twenty_channels_with_extra_ones_first_and_last(rt: HostRuntime) -> Result<(), Fail> {
    let alloc = rt.alloc();
    for (channels, is_paid) in [(18, true), (19, false)] {
        let payee = channels + 2;
        let parts = Parts {
            extra: &[free(100, 0, 1), free(101, channels + 1, payee)],
            ..NOTHING
        };
        let mut wanted = Vec::new(alloc);
        if is_paid {
            wanted.push((100, 0, 1, 1000, 700_760))?;
            for node in 1..=channels {
                let expiry = 700_760 - 40 * u32::from(node);
                wanted.push((u64::from(node), node, node + 1, 1000, expiry))?;
            }
            wanted.push((101, channels + 1, payee, 1000, 700_000))?;
        }
        let (items, ends) = (row(alloc, channels)?, (0, payee));
        assert_paid(&rt, alloc, &items, parts, ends, &wanted)?;
    }
    Ok(())
}
