//! Whether a map reads as the plain program's lists.

use super::item::point_of;
use super::made::IDS;
use super::plain::{Channel, Dated, Plain, ends, stored};
use lgm_check::{ChannelRow, NodeRow, UpdateRow};
use lgm_gossip::{BorrowedBytes, Scid};
use lgm_store::Map;
use std::alloc::{AllocError, Global};
use std::process::Abort;

/// Ranges of blocks: of one and of several blocks, between those of ids, empty, turned, and past the last block.
const RANGES: [(u64, u64); 10] = [
    (0, 1),
    (1, 2),
    (2, 256),
    (2, 257),
    (0, 16_777_216),
    (600_000, 600_000),
    (257, 2),
    (16_777_215, 16_777_216),
    (16_777_216, u64::MAX),
    (0, u64::MAX),
];

/// Whether a message ends in these bytes of a mark, after its last field.
fn is_marked(raw: &BorrowedBytes, rest: &BorrowedBytes, mark: u16) -> bool {
    let bytes = mark.to_be_bytes();
    rest.as_slice() == bytes.as_slice() && raw.as_slice().ends_with(&bytes)
}

fn is_channel(row: Option<ChannelRow>, id: u64, channel: Channel) -> bool {
    let Some(row) = row else {
        return false;
    };
    row.scid().to_u64() == id
        && row.node(false) == point_of(channel.nodes.0)
        && row.node(true) == point_of(channel.nodes.1)
        && row.sat == u64::from(channel.mark)
        && is_marked(&row.raw, &row.message.rest, channel.mark)
}

fn is_update(row: Option<UpdateRow>, key: (u64, bool), dated: Dated) -> bool {
    let Some(row) = row else {
        return false;
    };
    (row.scid().to_u64(), row.is_second()) == key
        && row.message.timestamp == dated.timestamp
        && is_marked(&row.raw, &row.message.rest, dated.mark)
}

fn is_node(row: Option<NodeRow>, node: u8, dated: Dated) -> bool {
    let Some(row) = row else {
        return false;
    };
    row.node() == point_of(node)
        && row.message.timestamp == dated.timestamp
        && is_marked(&row.raw, &row.message.rest, dated.mark)
}

/// The channels, iterated in order and looked up.
fn compare_channels(rt: &impl Abort, map: &Map, plain: &Plain) {
    assert_eq!(rt; map.count(), plain.channels.len());
    let mut after = None;
    for (id, channel) in &plain.channels {
        let scid = Scid::from_u64(*id);
        assert!(rt;
            is_channel(map.next_channel(after), *id, *channel),
            "next {id:x}"
        );
        assert!(rt;
            is_channel(map.channel(scid), *id, *channel),
            "channel {id:x}"
        );
        after = Some(scid);
    }
    assert!(rt; map.next_channel(after).is_none());
}

/// The nodes, iterated in order and looked up.
fn compare_nodes(rt: &impl Abort, map: &Map, plain: &Plain) {
    let mut after = None;
    for (node, dated) in &plain.nodes {
        let point = point_of(*node);
        assert!(rt;
            is_node(map.next_node(after.as_ref()), *node, *dated),
            "next {node}"
        );
        assert!(rt; is_node(map.node(&point), *node, *dated), "node {node}");
        after = Some(point);
    }
    assert!(rt; map.next_node(after.as_ref()).is_none());
}

/// The updates, looked up.
fn compare_updates(rt: &impl Abort, map: &Map, plain: &Plain) {
    for (key, dated) in &plain.updates {
        let row = map.update(Scid::from_u64(key.0), key.1);
        assert!(rt; is_update(row, *key, *dated), "update {key:?}");
    }
}

/// What the map has of an id, and what it doesn't have.
fn compare_id(rt: &impl Abort, map: &Map, plain: &Plain, id: u64) {
    let scid = Scid::from_u64(id);
    let channel = stored(plain.channels.as_slice(), id);
    assert_eq!(rt;
        map.channel(scid).is_some(),
        channel.is_some(),
        "channel {id:x}"
    );
    for second in [false, true] {
        let update = stored(plain.updates.as_slice(), (id, second));
        assert_eq!(rt;
            map.update(scid, second).is_some(),
            update.is_some(),
            "update {id:x}"
        );
    }
}

/// What the map has of a node, and what it doesn't have.
fn compare_node(rt: &impl Abort, map: &Map, plain: &Plain, node: u8) {
    let point = point_of(node);
    let announced = stored(plain.nodes.as_slice(), node);
    assert_eq!(rt;
        map.node(&point).is_some(),
        announced.is_some(),
        "node {node}"
    );
    let ended = ends(plain.channels.as_slice(), node);
    assert_eq!(rt; map.ends_channel(&point), ended, "ends of {node}");
    assert_eq!(rt; map.banned(&point), plain.is_banned(node), "ban of {node}");
}

/// The ids of a range of blocks, the block being an id's highest three bytes of eight.
fn compare_range(
    rt: &impl Abort,
    alloc: Global,
    map: &Map,
    plain: &Plain,
    range: (u64, u64),
) -> Result<(), AllocError> {
    let (from, to) = range;
    let mut want = Vec::new(alloc);
    for (id, _) in &plain.channels {
        let block = *id >> 40;
        if from <= block && block < to {
            want.push(Scid::from_u64(*id))?;
        }
    }
    let ids = map.ids_between(alloc, from, to)?;
    assert_eq!(rt; ids.as_slice(), want.as_slice(), "blocks {range:?}");
    Ok(())
}

/// All that a map's calls read.
pub fn compare(rt: &impl Abort, alloc: Global, map: &Map, plain: &Plain) -> Result<(), AllocError> {
    compare_channels(rt, map, plain);
    compare_updates(rt, map, plain);
    compare_nodes(rt, map, plain);
    for id in IDS {
        compare_id(rt, map, plain, id);
    }
    for node in 0..6 {
        compare_node(rt, map, plain, node);
    }
    for range in RANGES {
        compare_range(rt, alloc, map, plain, range)?;
    }
    Ok(())
}
