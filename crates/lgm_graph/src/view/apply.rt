//! Applying operations to a map and its view.

ghost use Rattle.std.specs.Prelude.{◌≡◌, ◌<◌, ◌^◌, length};
ghost use Rattle.lgm_store.specs.declared.op.Op.TheVariants as ops;
ghost use Rattle.lgm_graph.specs.Graph.{IsGraphOf};
ghost use Rattle.lgm_graph.specs.inner.Sound.{graph_in};
ghost use Rattle.lgm_graph.specs.inner.Applying.{IsDoneToBoth};

use crate::edge::edge_on;
use crate::known::Known;
use crate::nodes::Nodes;
use crate::view::affected_nodes::affected_nodes;
use lgm_check::{BanRow, StoredChannel, StoredNode, StoredUpdate};
use lgm_gossip::Scid;
use lgm_store::{Map, Op};
use std::alloc::{AllocError, Global};

/// Applies an update, whether or not its channel is in the map, to a map and its numbered nodes.
pub(super) fn apply_update(
    known: &Known,
    nodes: &mut Nodes,
    map: &mut Map,
    op: &Op,
    row: &StoredUpdate,
) -> Result<(), AllocError>
    requires op { op.now ≡ ops.Update row.now }
    requires few { length nodes.old.points.keys < 2 ^ 32 }
    requires beside { IsGraphOf map.old (graph_in known.now nodes.old) }
    ensures { IsDoneToBoth known.now op.now map.old map.new nodes.old nodes.new result }
{
    map.rows_are_lawful();
    // The contract of `len` says that points are distinct.
    let _ = nodes.points.len();
    let (scid, second) = (row.scid(), row.is_second());
    let Some(channel) = map.channel(scid) else {
        return map.absorb(op);
    };
    let (from, to) = (channel.node(second), channel.node(!second));
    let from = nodes.number_of(&from);
    let to = nodes.number_of(&to);
    let edge = edge_on(&channel, &row.row(), from, to);
    nodes.reserve_edges(from, to)?;
    map.absorb(op)?;
    nodes.put_edge(from, to, scid, second, edge);
    Ok(())
}

/// Applies a node announcement to a map and its numbered nodes.
pub(super) fn apply_node(
    known: &Known,
    nodes: &mut Nodes,
    map: &mut Map,
    op: &Op,
    row: &StoredNode,
) -> Result<(), AllocError>
    requires op { op.now ≡ ops.Node row.now }
    requires beside { IsGraphOf map.old (graph_in known.now nodes.old) }
    ensures { IsDoneToBoth known.now op.now map.old map.new nodes.old nodes.new result }
{
    map.absorb(op)?;
    nodes.refresh_features(known, map, &row.node());
    Ok(())
}

/// Applies a close to a map and its numbered nodes.
pub(super) fn apply_close(
    known: &Known,
    nodes: &mut Nodes,
    map: &mut Map,
    op: &Op,
    scid: Scid,
) -> Result<(), AllocError>
    requires op { op.now ≡ ops.Close scid }
    requires beside { IsGraphOf map.old (graph_in known.now nodes.old) }
    ensures { IsDoneToBoth known.now op.now map.old map.new nodes.old nodes.new result }
{
    map.rows_are_lawful();
    let Some(channel) = map.channel(scid) else {
        return map.absorb(op);
    };
    let (first, second) = (channel.node(false), channel.node(true));
    map.absorb(op)?;
    nodes.close_at(known, map, &first, scid);
    nodes.close_at(known, map, &second, scid);
    Ok(())
}

/// Applies a channel announcement to a map and its numbered nodes, and numbers the channel's nodes.
pub(super) fn apply_channel(
    alloc: Global,
    known: &Known,
    nodes: &mut Nodes,
    map: &mut Map,
    op: &Op,
    row: &StoredChannel,
) -> Result<(), AllocError>
    requires op { op.now ≡ ops.Channel row.now }
    requires beside { IsGraphOf map.old (graph_in known.now nodes.old) }
    ensures { IsDoneToBoth known.now op.now map.old map.new nodes.old nodes.new result }
{
    map.rows_are_lawful();
    nodes.reserve(2)?;
    map.absorb(op)?;
    nodes.number(alloc, known, map, row.node(false));
    nodes.number(alloc, known, map, row.node(true));
    Ok(())
}

/// Applies a ban to a map and its numbered nodes.
pub(super) fn apply_ban(
    alloc: Global,
    known: &Known,
    nodes: &mut Nodes,
    map: &mut Map,
    op: &Op,
    ban: &BanRow,
) -> Result<(), AllocError>
    requires op { op.now ≡ ops.Ban ban.now }
    requires beside { IsGraphOf map.old (graph_in known.now nodes.old) }
    ensures { IsDoneToBoth known.now op.now map.old map.new nodes.old nodes.new result }
{
    map.rows_are_lawful();
    let affected_nodes = affected_nodes(alloc, map, ban)?;
    map.absorb(op)?;
    for node in affected_nodes.as_slice() {
        nodes.ban_at(known, map, node);
    }
    Ok(())
}

/// Applies an operation to a map and its numbered nodes.
pub(super) fn apply(
    alloc: Global,
    known: &Known,
    nodes: &mut Nodes,
    map: &mut Map,
    op: &Op,
) -> Result<(), AllocError>
    requires few { length nodes.old.points.keys < 2 ^ 32 }
    requires beside { IsGraphOf map.old (graph_in known.now nodes.old) }
    ensures { IsDoneToBoth known.now op.now map.old map.new nodes.old nodes.new result }
{
    match op {
        Op::Channel(row) => apply_channel(alloc, known, nodes, map, op, row.get()),
        Op::Update(row) => apply_update(known, nodes, map, op, row.get()),
        Op::Node(row) => apply_node(known, nodes, map, op, row.get()),
        Op::Close(scid) => apply_close(known, nodes, map, op, *scid),
        Op::Ban(ban) => apply_ban(alloc, known, nodes, map, op, ban.get()),
    }
}
