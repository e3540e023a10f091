//! The edges of a view over an overlay, in the lists of the nodes that they enter and of those that they leave.

use super::made::{Item, NOTHING, Parts, Way, free, map_of, number, overlay_of, up_to};
use lgm_graph::{Edge, Known, OverlayView, RoutingGraph, View};
use lgm_test_gossip::FREE;
use std::alloc::{AllocError, Global};
use std::test::Fail;

/// An edge: its id, the numbers of its nodes, and its maximum.
type Listed = (u64, u16, u16, u64);

/// The maximum of the map's edges.
const MAX: u64 = FREE.max;

/// The channels 7 of 2 and 3, 8 of 3 and 4, and 9 of 2 and 4, whose direction from 4 is disabled. Node 4 requires bit 0.
fn items() -> [Item; 10] {
    [
        Item::Channel(7, 2, 3),
        Item::Update(free(7, 2, 3)),
        Item::Update(free(7, 3, 2)),
        Item::Channel(8, 3, 4),
        Item::Update(free(8, 3, 4)),
        Item::Update(free(8, 4, 3)),
        Item::Channel(9, 2, 4),
        Item::Update(free(9, 2, 4)),
        Item::Disabled(free(9, 4, 2)),
        Item::Node(4),
    ]
}

/// Its edges.
const OF_MAP: [Listed; 5] = [
    (7, 2, 3, MAX),
    (7, 3, 2, MAX),
    (8, 3, 4, MAX),
    (8, 4, 3, MAX),
    (9, 2, 4, MAX),
];

fn listed(view: &OverlayView, edge: &Edge) -> Listed {
    let from = view.point(edge.from).map_or(0, number);
    let to = view.point(edge.to).map_or(0, number);
    (edge.scid.to_u64(), from, to, edge.max)
}

/// The edges into all nodes, or out of them, sorted.
fn edges(alloc: Global, view: &OverlayView, into: bool) -> Result<Vec<Listed>, AllocError> {
    let mut edges = Vec::new(alloc);
    for number in 0..view.nodes() {
        let number = number as u32;
        let list = if into {
            view.edges_into(number)
        } else {
            view.edges_leaving(number)
        };
        for edge in list {
            edges.push(listed(view, edge))?;
        }
    }
    edges.sort()?;
    Ok(edges)
}

/// The edges into the nodes that take payments, and those out of all nodes.
fn laid(
    alloc: Global,
    known: &Known,
    parts: Parts,
) -> Result<(Vec<Listed>, Vec<Listed>), AllocError> {
    let map = map_of(alloc, &items())?;
    if map.count() > 2_000_000 {
        return Err(AllocError);
    }
    let view = Box::new(alloc, View::of(alloc, &map, known)?)?;
    let overlay = overlay_of(alloc, parts)?;
    if overlay.extra_count() > 1_000_000 {
        return Err(AllocError);
    }
    let over = OverlayView::of(alloc, &view, &overlay)?;
    Ok((edges(alloc, &over, true)?, edges(alloc, &over, false)?))
}

#[test]
fn edges_over_overlays(rt: HostRuntime) -> Result<(), Fail> {
    let [a, b, c, d, e] = OF_MAP;
    let limits = [
        (8, 3, 0),
        (7, 2, 900),
        (7, 2, 500),
        (7, 2, 700),
        (9, 2, MAX + 1),
        (9, 4, 1),
        (100, 1, 3),
        (7, 77, 0),
    ];
    let own = up_to(100, 1, 2, 5);
    let narrowed = [(7, 2, 3, 500), b, (8, 3, 4, 0), d, e, (100, 1, 2, 3)];
    let hints = [up_to(100, 4, 8, 5), up_to(101, 8, 9, 6)];
    let hinted = [a, b, c, d, e, (100, 4, 8, 5), (101, 8, 9, 6)];
    let sevens = [up_to(7, 4, 9, 1), up_to(7, 4, 8, 2), up_to(7, 2, 9, 3)];
    let rows: [(&[Way], &[(u64, u16, u64)], &[u16], &[Listed]); 7] = [
        (&[], &[], &[], &OF_MAP),
        // A payer that the map doesn't know has its own channel.
        (&[own], &[], &[], &[a, b, c, d, e, (100, 1, 2, 5)]),
        // Hints lead to an unknown payee.
        (&hints, &[], &[], &hinted),
        // Limits narrow edges, and exclude them.
        (&[own], &limits, &[], &narrowed),
        // Of a silent node only extra edges are used.
        (
            &[up_to(7, 3, 2, 9)],
            &[],
            &[3, 77],
            &[a, (7, 3, 2, 9), d, e],
        ),
        // The first extra edge of an id out of a node counts, and it replaces the map's.
        (&sevens, &[], &[], &[(7, 2, 9, 3), b, (7, 4, 9, 1), c, d, e]),
        // An extra edge revives a disabled one.
        (
            &[up_to(9, 4, 2, 3)],
            &[],
            &[],
            &[a, b, c, d, e, (9, 4, 2, 3)],
        ),
    ];
    for (extra, limits, silent, wanted) in rows {
        let parts = Parts {
            extra,
            limits,
            silent,
        };
        let (into, out) = laid(rt.alloc(), &Known::all(), parts)?;
        assert_eq!(rt; into.as_slice(), wanted);
        assert_eq!(rt; out.as_slice(), wanted);
    }
    Ok(())
}

#[test]
fn a_node_that_requires_unknown_bits_takes_no_payments(rt: HostRuntime) -> Result<(), Fail> {
    let parts = Parts {
        extra: &[up_to(100, 1, 4, 5), up_to(101, 4, 1, 6)],
        ..NOTHING
    };
    let known = Known::bits(rt.alloc(), &[0])?;
    let (into, out) = laid(rt.alloc(), &known, parts)?;
    let [a, b, c, d, e] = OF_MAP;
    assert!(rt; into.as_slice() == [a, b, d, (101, 4, 1, 6)].as_slice());
    assert!(rt; out.as_slice() == [a, b, c, d, e, (100, 1, 4, 5), (101, 4, 1, 6)].as_slice());
    Ok(())
}
