//! What isn't used or carries less: channels that failed, amounts that they couldn't carry, and silent nodes.

use super::made::{Item, NOTHING, Parts, Way, charging, free, up_to};
use super::paid::{BACK_OVER_1, BACK_OVER_2, OVER_1, OVER_2, Told, assert_paid, two_ways};
use std::test::Fail;

#[test]
fn a_channel_is_excluded_in_one_direction_or_in_both(rt: HostRuntime) -> Result<(), Fail> {
    let others = [(2, 0, 0), (2, 2, 0), (2, 77, 0), (4, 1, 0), (9, 0, 0)];
    let rows: [(&[(u64, u16, u64)], [Told; 2], [Told; 2]); 5] = [
        (&[], OVER_1, BACK_OVER_1),
        (&[(2, 1, 0)], OVER_2, BACK_OVER_1),
        (&[(2, 3, 0)], OVER_1, BACK_OVER_2),
        (&[(2, 1, 0), (2, 3, 0)], OVER_2, BACK_OVER_2),
        // None of these is a channel of its node.
        (&others, OVER_1, BACK_OVER_1),
    ];
    for (limits, there, back) in rows {
        let parts = Parts { limits, ..NOTHING };
        assert_paid(&rt, rt.alloc(), &two_ways(), parts, (0, 3), &there)?;
        assert_paid(&rt, rt.alloc(), &two_ways(), parts, (3, 0), &back)?;
    }
    Ok(())
}

/// The first channel carries 1,010 msat, with the fee of node 1, and the second one carries 1,000 msat.
#[test]
fn a_limit_applies_to_what_the_channel_carries_with_fees(rt: HostRuntime) -> Result<(), Fail> {
    let rows: [(&[(u64, u16, u64)], &[Told]); 9] = [
        (&[(1, 0, 1009)], &OVER_2),
        (&[(1, 0, 1010)], &OVER_1),
        (&[(1, 0, 1011)], &OVER_1),
        (&[(2, 1, 999)], &OVER_2),
        (&[(2, 1, 1000)], &OVER_1),
        (&[(2, 1, 1001)], &OVER_1),
        // The least limit counts, wherever it stands.
        (&[(1, 0, 5000), (1, 0, 1009), (1, 0, 2000)], &OVER_2),
        (&[(1, 0, 1009), (3, 0, 1050)], &OVER_2),
        (&[(1, 0, 1009), (3, 0, 1049)], &[]),
    ];
    for (limits, wanted) in rows {
        let parts = Parts { limits, ..NOTHING };
        assert_paid(&rt, rt.alloc(), &two_ways(), parts, (0, 3), wanted)?;
    }
    Ok(())
}

/// Four channels from node 0 to node 3: of at most 999 msat, disabled, with a maximum above its capacity, and with an
/// even feature bit.
fn unusable() -> [Item; 8] {
    [
        Item::Channel(5, 0, 3),
        Item::Update(up_to(5, 0, 3, 999)),
        Item::Channel(6, 0, 3),
        Item::Disabled(free(6, 0, 3)),
        Item::Channel(7, 0, 3),
        Item::Update(up_to(7, 0, 3, 100_000_001)),
        Item::Even(8, 0, 3),
        Item::Update(free(8, 0, 3)),
    ]
}

#[test]
fn no_limit_raises_a_maximum_or_revives_an_edge(rt: HostRuntime) -> Result<(), Fail> {
    for id in 5..=8 {
        for most in [1000, u64::MAX] {
            let parts = Parts {
                limits: &[(id, 0, most)],
                ..NOTHING
            };
            assert_paid(&rt, rt.alloc(), &unusable(), parts, (0, 3), &[])?;
        }
    }
    Ok(())
}

#[test]
fn an_extra_edge_revives_an_edge(rt: HostRuntime) -> Result<(), Fail> {
    for id in 5..=8 {
        let parts = Parts {
            extra: &[up_to(id, 0, 3, u64::MAX)],
            ..NOTHING
        };
        let wanted = [(id, 0, 3, 1000, 700_000)];
        assert_paid(&rt, rt.alloc(), &unusable(), parts, (0, 3), &wanted)?;
    }
    Ok(())
}

#[test]
fn a_silent_node_forwards_nothing_and_is_still_paid(rt: HostRuntime) -> Result<(), Fail> {
    let rows: [(&[u16], (u16, u16), &[Told]); 8] = [
        (&[1], (0, 3), &OVER_2),
        (&[1, 1, 77], (0, 3), &OVER_2),
        (&[1, 2], (0, 3), &[]),
        (&[1], (3, 0), &BACK_OVER_2),
        (&[1], (0, 1), &[(1, 0, 1, 1000, 700_000)]),
        (&[3], (0, 3), &OVER_1),
        (&[0], (0, 3), &[]),
        (&[77], (0, 3), &OVER_1),
    ];
    for (silent, ends, wanted) in rows {
        let parts = Parts { silent, ..NOTHING };
        assert_paid(&rt, rt.alloc(), &two_ways(), parts, ends, wanted)?;
    }
    Ok(())
}

/// The payer says what its own channels can send, and which ones it uses. Whatever their terms, it charges itself
/// nothing.
#[test]
fn a_silent_node_has_its_extra_edges(rt: HostRuntime) -> Result<(), Fail> {
    let over_31 = [(1, 0, 1, 1005, 700_040), (31, 1, 3, 1000, 700_000)];
    let rows: [(&[Way], &[u16], &[Told]); 6] = [
        (&[up_to(1, 0, 1, 1009)], &[0], &[]),
        (&[up_to(1, 0, 1, 1010)], &[0], &OVER_1),
        (&[up_to(1, 0, 1, 1009), up_to(3, 0, 2, 1050)], &[0], &OVER_2),
        (&[up_to(3, 0, 2, 5000)], &[0], &OVER_2),
        (
            &[charging(30, 0, 3, 500)],
            &[0],
            &[(30, 0, 3, 1000, 700_000)],
        ),
        (&[charging(31, 1, 3, 5)], &[1], &over_31),
    ];
    for (extra, silent, wanted) in rows {
        let parts = Parts {
            extra,
            silent,
            ..NOTHING
        };
        assert_paid(&rt, rt.alloc(), &two_ways(), parts, (0, 3), wanted)?;
    }
    Ok(())
}
