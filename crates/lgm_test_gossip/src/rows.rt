//! Whether two maps have the same rows.

use crate::points::point;
use lgm_check::{ChannelRow, NodeRow, UpdateRow};
use lgm_gossip::Scid;
use lgm_store::Map;

fn has_channel(map: &Map, row: &ChannelRow<'_>) -> bool {
    match map.channel(row.scid()) {
        Some(own) => own.sat == row.sat && own.raw.as_slice() == row.raw.as_slice(),
        None => false,
    }
}

fn has_update(map: &Map, scid: Scid, second: bool, row: Option<UpdateRow<'_>>) -> bool {
    match (map.update(scid, second), row) {
        (Some(own), Some(row)) => own.raw.as_slice() == row.raw.as_slice(),
        (None, None) => true,
        _ => false,
    }
}

fn has_node(map: &Map, row: &NodeRow<'_>) -> bool {
    match map.node(&row.node()) {
        Some(own) => own.raw.as_slice() == row.raw.as_slice(),
        None => false,
    }
}

/// Whether a map has each channel of another one, with the same capacity and the same updates, and each of its nodes.
fn has_rows_of(map: &Map, other: &Map) -> bool {
    for stored in other.channels() {
        let row = stored.row();
        let scid = row.scid();
        let has = has_channel(map, &row)
            && has_update(map, scid, false, stored.update(false))
            && has_update(map, scid, true, stored.update(true));
        if !has {
            return false;
        }
    }
    for stored in other.nodes() {
        if !has_node(map, &stored.row()) {
            return false;
        }
    }
    true
}

/// Whether the same of the points that tests have are banned.
fn ban_the_same(map: &Map, other: &Map) -> bool {
    for number in 0..256u16 {
        let tested = point(number);
        if map.banned(&tested) != other.banned(&tested) {
            return false;
        }
    }
    true
}

/// Whether two maps have the same channels, updates, nodes and bans, byte by byte.
pub fn have_same_rows(map: &Map, other: &Map) -> bool {
    has_rows_of(map, other) && has_rows_of(other, map) && ban_the_same(map, other)
}
