//! How much may reach a node.

ghost use Rattle.std.specs.Prelude.{◌≡◌, ◌+◌, ◌-◌, ◌^◌, min, sum_by, IfOk};
ghost use Rattle.lgm_graph.specs.Estimates.{estimate_of};
ghost use Rattle.lgm_odds.specs.Room.{other_end, room_from, room_of, room_by, extra_into, room_into};

use crate::edge_most::most_of;
use lgm_check::ChannelRow;
use lgm_gossip::{Point, Scid};
use lgm_graph::{Estimates, ExtraEdge, Limit};
use lgm_store::Map;
use std::alloc::{AllocError, Global};

/// The other node of a channel.
pub(crate) fn other_end(channel: &ChannelRow<'_>, node: &Point) -> Point
    ensures { result ≡ other_end channel.now node.now }
{
    if channel.message.node_id_1 == *node {
        channel.message.node_id_2
    } else {
        channel.message.node_id_1
    }
}

/// What a channel can carry from a node, in msat.
pub(crate) fn room_from(
    limits: &[Limit],
    estimates: &Estimates,
    from: &Point,
    channel: &ChannelRow<'_>,
) -> u64
    ensures { result ≡ room_from limits.now (estimate_of estimates.now) from.now channel.now }
{
    let scid = channel.message.short_channel_id;
    let capacity = channel.sat.saturating_mul(1_000);
    let most = capacity.min(estimates.get(scid, from).most);
    most_of(limits, scid, from, most)
}

/// What a channel can carry to a node, in msat.
fn room_of(limits: &[Limit], estimates: &Estimates, node: &Point, channel: &ChannelRow<'_>) -> u64
    ensures { result ≡ room_of limits.now (estimate_of estimates.now) node.now channel.now }
{
    room_from(limits, estimates, &other_end(channel, node), channel)
}

/// What the channel with an id can carry to a node, in msat.
fn room_by(map: &Map, limits: &[Limit], estimates: &Estimates, node: &Point, id: Scid) -> u64
    ensures { result ≡ room_by map.now limits.now (estimate_of estimates.now) node.now id }
{
    match map.channel(id) {
        Some(channel) => room_of(limits, estimates, node, &channel),
        None => 0,
    }
}

/// What an edge beside the map can carry to a node, in msat.
fn extra_into(node: &Point, edge: &ExtraEdge) -> u64
    ensures { result ≡ extra_into node.now edge.now }
{
    if edge.to == *node { edge.max } else { 0 }
}

/// What some edges beside the map can, together, and 2^64 - 1 at most.
fn all_extra_into(node: &Point, extra: &[ExtraEdge]) -> u64
    ensures { result ≡ min (2 ^ 64 - 1) (sum_by (extra_into node.now) extra.now) }
{
    let mut room = 0u64;
    for edge in extra {
        room = room.saturating_add(extra_into(node, edge));
    }
    room
}

/// What channels with some ids can, together, and 2^64 - 1 at most.
fn all_room_by(
    map: &Map,
    limits: &[Limit],
    estimates: &Estimates,
    node: &Point,
    ids: &[Scid],
) -> u64
    ensures { result ≡ min (2 ^ 64 - 1) (sum_by (room_by map.now limits.now (estimate_of estimates.now) node.now) ids.now) }
{
    let mut room = 0u64;
    for id in ids {
        room = room.saturating_add(room_by(map, limits, estimates, node, *id));
    }
    room
}

/// What the edges into a node can carry together, in msat, and 2^64 - 1 at most: of those beside the map their maxima,
/// and of the map's channels their capacities, what is believed of them, or limits.
pub fn room_into(
    alloc: Global,
    map: &Map,
    extra: &[ExtraEdge],
    limits: &[Limit],
    estimates: &Estimates,
    node: &Point,
) -> Result<u64, AllocError>
    ensures { IfOk result (λ room. room ≡ room_into map.now extra.now limits.now (estimate_of estimates.now) node.now) }
{
    let ids = map.ids_at(alloc, node)?;
    let public = all_room_by(map, limits, estimates, node, ids.as_slice());
    Ok(all_extra_into(node, extra).saturating_add(public))
}
