//! `lgm_graph`: edges as operations change them, and views of them.

use lgm_gossip::{Point, Scid};
use lgm_graph::{Edge, Known, Network, RoutingGraph, View, fee};
use lgm_store::{Map, Op, Seed};
use lgm_test_gossip::ops::{ban, channel, node, update};
use lgm_test_gossip::{FREE, Terms, have_same_rows, is_as_made, point};
use lgm_timeline::Timeline;
use std::alloc::{AllocError, Global};
use std::test::Fail;

fn scid() -> Scid {
    Scid::from_u64(7)
}

/// What happens to one channel between the nodes 2 and 3, step by step.
fn event(alloc: Global, step: u8) -> Result<Op, AllocError> {
    match step {
        0 => channel(alloc, scid(), (2, 3), 100_000, &[]),
        1 => update(alloc, scid(), 0, &FREE),
        2 => update(alloc, scid(), 1, &FREE),
        3 => node(alloc, 3, &[1]),
        4 => node(alloc, 3, &[2]),
        5 => update(alloc, scid(), 2, &FREE),
        _ => Ok(Op::Close(scid())),
    }
}

/// A network without channels, with its view.
fn empty(alloc: Global, known: &Known) -> Result<Box<Network>, AllocError> {
    let mut network = Box::new(alloc, Network::new(alloc, Seed::new([7; 16]), known)?)?;
    network.make_view(alloc)?;
    Ok(network)
}

/// How many edges there are, if there is a view.
fn edge_count(network: &Network) -> Option<usize> {
    Some(network.view()?.edge_count())
}

/// How many edges there are once the network has absorbed one more operation.
fn edges_after(network: &mut Network, op: &Op) -> Result<Option<usize>, AllocError> {
    network.absorb(op)?;
    Ok(edge_count(network))
}

#[test]
fn operations_change_the_edges(rt: HostRuntime) -> Result<(), Fail> {
    let alloc = rt.alloc();
    let known = Known::bits(alloc, &[0])?;
    let mut network = empty(alloc, &known)?;
    for (step, edges) in [(0, 0), (1, 1), (2, 2), (3, 1), (4, 2), (5, 1), (6, 0)] {
        let op = event(alloc, step)?;
        assert_eq!(rt;
            edges_after(&mut network, &op)?,
            Some(edges),
            "after step {step}"
        );
    }
    Ok(())
}

/// The network of the channel with an update from its node 3.
fn one_way(alloc: Global) -> Result<Box<Network>, AllocError> {
    let mut network = empty(alloc, &Known::all())?;
    network.absorb(&event(alloc, 0)?)?;
    network.absorb(&event(alloc, 2)?)?;
    Ok(network)
}

/// A copy of a network with few channels, with its view.
fn copied(alloc: Global, network: &Network) -> Result<Box<Network>, AllocError> {
    if network.map().count() > 1_000 {
        return Err(AllocError);
    }
    let mut copy = Box::new(alloc, network.copy(alloc)?)?;
    copy.make_view(alloc)?;
    Ok(copy)
}

/// The ends of the edge at a place, and whether it leaves the channel's second node.
fn ends_of(view: &View, place: usize) -> Option<(Point, Point, bool)> {
    let edge = view.edge(place)?;
    Some((*view.point(edge.from)?, *view.point(edge.to)?, edge.second))
}

#[test]
fn an_edge_joins_its_points(rt: HostRuntime) -> Result<(), Fail> {
    let network = copied(rt.alloc(), &*one_way(rt.alloc())?)?;
    let view = network.view().ok_or("no view")?;
    assert!(rt; ends_of(view, 0) == Some((point(3), point(2), true)));
    assert!(rt; ends_of(view, 1).is_none());
    assert_eq!(rt; view.node_number(&point(3)), Some(1));
    assert!(rt; view.point(1) == Some(&point(3)));
    assert_eq!(rt; view.edges_into(0).len(), 1);
    assert_eq!(rt; view.edges_leaving(1).len(), 1);
    assert!(rt; view.takes_payments(0));
    Ok(())
}

/// An operation, with each channel named by its block.
#[derive(Clone, Copy)]
enum Step {
    /// A channel between two nodes.
    Channel(u32, (u16, u16)),
    /// An update of a direction, with its maximum in msat.
    Update(u32, u8, u64),
    /// The announcement of a node.
    Node(u16),
    Close(u32),
    Ban([u16; 4]),
}

/// The maximum of an update that has no other terms, in msat.
const MOST: u64 = FREE.max;

/// One direction, and then one with a lower maximum.
const LOWERED: [Step; 3] = [
    Step::Channel(600_000, (10, 11)),
    Step::Update(600_000, 0, 50_000),
    Step::Update(600_000, 0, 49_999),
];

/// A channel with both directions, one after it, and two parallel ones.
const BESIDE: [Step; 9] = [
    Step::Channel(600_000, (10, 11)),
    Step::Update(600_000, 0, MOST),
    Step::Update(600_000, 1, MOST),
    Step::Channel(600_001, (11, 12)),
    Step::Update(600_001, 0, MOST),
    Step::Channel(600_009, (10, 12)),
    Step::Update(600_009, 0, MOST),
    Step::Channel(600_008, (10, 12)),
    Step::Update(600_008, 0, MOST),
];

/// Channels without updates, closed between announcements of their node.
const CLOSED: [Step; 6] = [
    Step::Channel(1, (10, 11)),
    Step::Channel(2, (11, 12)),
    Step::Node(11),
    Step::Close(1),
    Step::Node(11),
    Step::Close(2),
];

/// A ban of the nodes of channels without updates, and then a channel of a node that lost its own.
const BANNED: [Step; 6] = [
    Step::Channel(1, (10, 11)),
    Step::Channel(2, (11, 12)),
    Step::Node(12),
    Step::Ban([10, 11, 1, 10]),
    Step::Channel(3, (2, 12)),
    Step::Node(12),
];

/// The same with updates, and one that isn't banned.
const BANNED_EDGES: [Step; 8] = [
    Step::Channel(1, (10, 11)),
    Step::Update(1, 0, MOST),
    Step::Channel(2, (11, 12)),
    Step::Update(2, 1, MOST),
    Step::Channel(3, (2, 12)),
    Step::Update(3, 0, MOST),
    Step::Update(3, 1, MOST),
    Step::Ban([10, 11, 1, 10]),
];

/// The id of the first output of a block's first transaction.
fn first_of(block: u32) -> Scid {
    Scid::from_u64(u64::from(block).wrapping_mul(0x100_0000_0000))
}

fn operation(alloc: Global, step: Step) -> Result<Op, AllocError> {
    match step {
        Step::Channel(block, nodes) => channel(alloc, first_of(block), nodes, 100_000, &[]),
        Step::Update(block, direction, max) => {
            update(alloc, first_of(block), direction, &Terms { max, ..FREE })
        }
        Step::Node(number) => node(alloc, number, &[]),
        Step::Close(block) => Ok(Op::Close(first_of(block))),
        Step::Ban(nodes) => ban(alloc, nodes),
    }
}

/// Whether a network has its view, which is as one that is made of its map.
fn has_its_view(alloc: Global, network: &Network) -> Result<bool, AllocError> {
    match network.view() {
        Some(view) => is_as_made(alloc, view, network.map(), network.known()),
        None => Ok(false),
    }
}

/// Absorbs an operation, a second time if memory was refused. Whether the refusal left all rows and edges unchanged.
fn absorb_or_again(alloc: Global, network: &mut Network, op: &Op) -> Result<bool, AllocError> {
    let before = network.map().copy(alloc)?;
    if network.absorb(op).is_ok() {
        return Ok(true);
    }
    let same = have_same_rows(network.map(), &before) && has_its_view(alloc, network)?;
    network.absorb(op)?;
    Ok(same)
}

/// Whether the view is as one that is made of the map after each step, and a refused step left the network as it was; and
/// how many edges there are in the end.
fn kept_edges(alloc: Global, steps: &[Step]) -> Result<(bool, Option<usize>), AllocError> {
    let mut network = empty(alloc, &Known::all())?;
    let mut same = true;
    for step in steps {
        same = absorb_or_again(alloc, &mut network, &operation(alloc, *step)?)? && same;
        same = has_its_view(alloc, &network)? && same;
    }
    Ok((same, edge_count(&network)))
}

/// To be run with each allocation refused in turn, too.
#[test]
fn each_step_keeps_map_and_view(rt: HostRuntime) {
    for (steps, edges) in [
        (LOWERED.as_slice(), 1),
        (BESIDE.as_slice(), 5),
        (CLOSED.as_slice(), 0),
        (BANNED.as_slice(), 0),
        (BANNED_EDGES.as_slice(), 2),
    ] {
        if let Ok(ended) = kept_edges(rt.alloc(), steps) {
            assert_eq!(rt; ended, (true, Some(edges)));
        }
    }
}

/// A timeline whose mark is on a channel without updates, and has its view there.
fn marked(alloc: Global) -> Result<Box<Timeline>, AllocError> {
    let network = Network::new(alloc, Seed::new([7; 16]), &Known::all())?;
    let mut timeline = Box::new(alloc, Timeline::new(alloc, network))?;
    timeline.absorb(alloc, operation(alloc, Step::Channel(9, (20, 21)))?)?;
    timeline.renew_mark();
    timeline.reach_mark()?;
    if timeline.network_at_mark().map().count() > 1_000 {
        return Err(AllocError);
    }
    timeline.make_view_at_mark(alloc)?;
    Ok(timeline)
}

/// Whether the network at the mark has its view, which is as one that is made of its map; and how many edges it has.
fn at_mark(alloc: Global, timeline: &mut Timeline) -> Result<(bool, Option<usize>), AllocError> {
    timeline.reach_mark()?;
    let network = timeline.network_at_mark();
    Ok((has_its_view(alloc, network)?, edge_count(network)))
}

/// The edges at such a mark when these steps are behind it, and once it has moved there; and those of the newest network.
fn passed(alloc: Global, steps: &[Step]) -> Result<[(bool, Option<usize>); 3], AllocError> {
    let mut timeline = marked(alloc)?;
    for step in steps {
        timeline.absorb(alloc, operation(alloc, *step)?)?;
    }
    let before = at_mark(alloc, &mut timeline)?;
    timeline.renew_mark();
    let after = at_mark(alloc, &mut timeline)?;
    let newest = timeline.network();
    Ok([
        before,
        after,
        (has_its_view(alloc, newest)?, edge_count(newest)),
    ])
}

/// The network at the mark keeps its view while the newest one goes on without, and has it when it comes to the next mark.
#[test]
fn a_view_stays_at_the_mark(rt: HostRuntime) -> Result<(), Fail> {
    let alloc = rt.alloc();
    assert_eq!(rt;
        passed(alloc, &BESIDE)?,
        [(true, Some(0)), (true, Some(5)), (false, None)]
    );
    assert_eq!(rt;
        passed(alloc, &BANNED_EDGES)?,
        [(true, Some(0)), (true, Some(2)), (false, None)]
    );
    Ok(())
}

#[test]
fn fees_and_features(rt: HostRuntime) -> Result<(), Fail> {
    let alloc = rt.alloc();
    assert_eq!(rt; fee(4_999_999, 200, 2_000), 10_199);
    assert_eq!(rt;
        fee(2_100_000_000_000_000_000, 4_294_967_295, 4_294_967_295),
        9_019_431_319_504_294_967_295
    );
    let known = Known::bits(alloc, &[1])?;
    assert!(rt; known.allows(&[1]) && known.allows(&[2]));
    assert!(rt; !known.allows(&[1, 0]));
    assert!(rt; !known.copy(alloc)?.allows(&[1, 0]));
    Ok(())
}
