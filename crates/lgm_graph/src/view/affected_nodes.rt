//! The nodes that lose channels by a ban.

ghost use Rattle.std.specs.Prelude.{◌≡◌, true, OnOk, IfOk};
ghost use Rattle.std.specs.List.{AllByRecursion};
ghost use Rattle.lgm_wire.specs.declared.point.Point.{Point as APoint};
ghost use Rattle.lgm_store.specs.Rows.{ends_at, ends_banned};
ghost use Rattle.lgm_store.specs.History.{with_banned};
ghost use Rattle.lgm_graph.specs.inner.Sound.{is_among, HasEnds};

use indexmap::IndexSet;
use lgm_check::BanRow;
use lgm_gossip::Point;
use lgm_store::{Map, Seed};
use std::alloc::{AllocError, Global};

/// Adds the nodes of the channels of a node to some points.
fn add_ends(
    alloc: Global,
    map: &Map,
    node: &Point,
    ends: &mut IndexSet<Point, Seed>,
) -> Result<(), AllocError>
    ensures kept { OnOk result
        ((q : APoint) → is_among ends.old.keys q ≡ true → is_among ends.new.keys q ≡ true) }
    ensures ends { OnOk result (AllByRecursion
        (λ channel. ends_at node.now channel ≡ true → HasEnds ends.new.keys channel) map.now.channels) }
{
    map.rows_are_lawful();
    let scids = map.ids_at(alloc, node)?;
    for scid in scids.as_slice() {
        if let Some(stored) = map.channel_info(*scid) {
            ends.insert(*stored.node(false))?;
            ends.insert(*stored.node(true))?;
        }
    }
    Ok(())
}

/// The nodes that lose channels by a ban: the nodes of the channels of its points.
pub(super) fn affected_nodes(
    alloc: Global,
    map: &Map,
    ban: &BanRow,
) -> Result<IndexSet<Point, Seed>, AllocError>
    ensures { IfOk result (λ ends. AllByRecursion (λ channel. ends_banned (with_banned map.now.banned ban.now)
        channel ≡ true → HasEnds ends.keys channel) map.now.channels) }
{
    map.rows_are_lawful();
    let mut ends = IndexSet::with_hasher(alloc, map.seed());
    add_ends(alloc, map, &ban.held1, &mut ends)?;
    add_ends(alloc, map, &ban.held2, &mut ends)?;
    add_ends(alloc, map, &ban.new1, &mut ends)?;
    add_ends(alloc, map, &ban.new2, &mut ends)?;
    Ok(ends)
}
