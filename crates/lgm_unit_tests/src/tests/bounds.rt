//! What networks and copies of maps take: it is bounded by what there is, whatever has been.

use super::memory::most_memory;
use lgm_gossip::Scid;
use lgm_graph::{Known, Network, RoutingGraph};
use lgm_store::{Map, Op, Seed};
use lgm_test_gossip::empty_map;
use lgm_test_gossip::ops::channel;
use std::alloc::{AllocError, Global};
use std::test::Fail;

/// The id of the channel of a block.
fn scid(block: u32) -> Scid {
    Scid::from_u64(u64::from(block) << 40)
}

/// 10,000 channels, each between two nodes that come with it, and its close, with which they go.
fn coming_and_going(alloc: Global) -> Result<Vec<Op>, AllocError> {
    let mut ops = Vec::new(alloc);
    for pair in 0..10_000u16 {
        let first = pair.wrapping_mul(2);
        let nodes = (first, first.wrapping_add(1));
        ops.push(channel(alloc, scid(7), nodes, 100_000, &[])?)?;
        ops.push(Op::Close(scid(7)))?;
    }
    Ok(ops)
}

/// The points of a network's view, which is built if there is none.
fn points(alloc: Global, network: &mut Network) -> Result<usize, Fail> {
    if network.map().count() > 2_000_000_000 {
        return Err(Fail::from("too many channels"));
    }
    network.make_view(alloc)?;
    Ok(network.view().ok_or("no view")?.nodes())
}

/// Of 20,000 nodes that come and go, the view of a map without channels numbers 1,024 at most, for each of none four.
#[test]
fn a_view_forgets_nodes(rt: HostRuntime) -> Result<(), Fail> {
    let alloc = rt.alloc();
    let mut network = Box::new(
        alloc,
        Network::new(alloc, Seed::new([7; 16]), &Known::all())?,
    )?;
    let mut most = 0;
    for op in &coming_and_going(alloc)? {
        network.absorb(op)?;
        if network.map().count() == 0 {
            most = points(alloc, &mut network)?.max(most);
        }
    }
    assert_eq!(rt; most, 1_024);
    Ok(())
}

/// A map of 60 channels, which had 10,000.
fn once_large(alloc: Global) -> Result<Box<Map>, AllocError> {
    let mut map = empty_map(alloc)?;
    for block in 0..10_000u16 {
        let nodes = (block, block.wrapping_add(1));
        map.absorb(&channel(alloc, scid(u32::from(block)), nodes, 100_000, &[])?)?;
    }
    for block in 60..10_000u32 {
        map.absorb(&Op::Close(scid(block)))?;
    }
    Ok(map)
}

fn copied(alloc: Global, map: &Map) -> Result<Box<Map>, AllocError> {
    Ok(Box::new(alloc, map.copy(alloc)?)?)
}

/// Each of 100 copies has 60 channels. With the room of 10,000 they would take some 400,000 KiB. If `rt try` runs the test,
/// freed memory is kept for a while, so that they take up to 40,000.
#[test]
fn a_copy_takes_the_room_that_it_needs(rt: HostRuntime) -> Result<(), Fail> {
    let alloc = rt.alloc();
    let map = once_large(alloc)?;
    let before = most_memory(&rt)?;
    let mut copies = Vec::new(alloc);
    for _ in 0..100 {
        copies.push(copied(alloc, &map)?)?;
    }
    assert!(rt; copies.as_slice().iter().all(|copy| copy.count() == 60));
    let more = most_memory(&rt)?.saturating_sub(before);
    assert!(rt; more < 100_000, "{more} KiB more");
    Ok(())
}
