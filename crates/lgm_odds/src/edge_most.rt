//! What edges forward at most.

ghost use Rattle.std.specs.Prelude.{◌≡◌, fold};
ghost use Rattle.std.specs.Option.{option_copied};
ghost use Rattle.lgm_graph.specs.Overlay.{at_most, most_of};
ghost use Rattle.lgm_odds.specs.RouteOdds.{is_node_2, public_most, named, extra_most, most_over};

use lgm_gossip::{Point, Scid};
use lgm_graph::{ExtraEdge, Limit};
use lgm_store::Map;

/// Whether a node is node 2 of a channel of the map.
fn is_node_2(map: &Map, scid: Scid, from: &Point) -> bool
    ensures { result ≡ is_node_2 map.now scid from.now }
{
    match map.channel(scid) {
        Some(channel) => channel.message.node_id_2 == *from,
        None => false,
    }
}

/// What an edge forwards at most by the map, in msat: 0 if it has no update of it.
fn public_most(map: &Map, scid: Scid, from: &Point) -> u64
    ensures { result ≡ public_most map.now scid from.now }
{
    match map.update(scid, is_node_2(map, scid, from)) {
        Some(update) => update.message.htlc_maximum_msat,
        None => 0,
    }
}

/// The first of some edges with an id out of a node.
fn named<'a>(extra: &'a [ExtraEdge], scid: Scid, from: &Point) -> Option<&'a ExtraEdge>
    ensures { option_copied result ≡ named extra.entry.now scid from.now }
{
    extra
        .iter()
        .find(|edge| edge.scid == scid && edge.from == *from)
}

/// Its maximum, in msat, if there is one.
fn extra_most(extra: &[ExtraEdge], scid: Scid, from: &Point, others: u64) -> u64
    ensures { result ≡ extra_most extra.now scid from.now others }
{
    match named(extra, scid, from) {
        Some(edge) => edge.max,
        None => others,
    }
}

/// The amount, or a limit that is less, if it is of the edge.
fn at_most(scid: Scid, from: &Point, most: u64, limit: &Limit) -> u64
    ensures { result ≡ at_most scid from.now most limit.now }
{
    if limit.scid == scid && *from == limit.from {
        most.min(limit.most)
    } else {
        most
    }
}

/// The least of an amount and the limits of an edge.
pub(crate) fn most_of(limits: &[Limit], scid: Scid, from: &Point, max: u64) -> u64
    ensures { result ≡ most_of limits.now scid from.now max }
{
    let mut most = max;
    for limit in limits {
        most = at_most(scid, from, most, limit);
    }
    most
}

/// What an edge forwards at most by edges beside the map, or else by the map, and by limits, in msat.
pub(crate) fn most_over(
    map: &Map,
    extra: &[ExtraEdge],
    limits: &[Limit],
    scid: Scid,
    from: &Point,
) -> u64
    ensures { result ≡ most_over map.now extra.now limits.now scid from.now }
{
    let max = extra_most(extra, scid, from, public_most(map, scid, from));
    most_of(limits, scid, from, max)
}
