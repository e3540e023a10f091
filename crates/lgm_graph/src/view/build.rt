//! Building the view of a map.
//!
//! A first traversal of the channels numbers their nodes and lists the edges one after the other. Only then are the
//! lists per node made, each of its final length.

ghost use Rattle.std.specs.Prelude.{◌≡◌, ◌+◌, ◌*◌, ◌<◌, ◌≤◌, ◌^◌, ◌++◌, [], Bool, List, length, IfOk, OnOk, option_to_list};
ghost use Rattle.lgm_wire.specs.declared.point.Point.{Point as APoint};
ghost use Rattle.std.specs.Option.{option_and_then, option_map};
ghost use Rattle.lgm_store.specs.ChannelInfo.{update_in, stored_at};
ghost use Rattle.lgm_graph.specs.Edges.{PointEdge, edge_on, takes_payments};
ghost use Rattle.lgm_graph.specs.Graph.{IsGraphOf, IsNumbered, numbered_as, number_of};
ghost use Rattle.lgm_graph.specs.inner.Sound.{ShowsIn};
ghost use Rattle.lgm_graph.specs.inner.Walk.{AreEdgesOf, HasNumbered, KeepsNumbers, edges_of_channel};

use super::number_cache::NumberCache;
use super::{Parts, View};
use crate::edge::{Edge, edge_on};
use crate::known::Known;
use crate::nodes::{Nodes, takes_payments};
use lgm_gossip::Point;
use lgm_store::{ChannelInfo, Map};
use std::alloc::{AllocError, Global};

impl View {
    /// The view of a map, with the known feature bits, which are copied.
    pub fn of(alloc: Global, map: &Map, known: &Known) -> Result<View, AllocError>
        requires { length map.now.channels ≤ 2000000000 }
        ensures beside { IfOk result (IsGraphOf map.now) }
        ensures known { IfOk result (λ view. view.known ≡ known.now) }
        ensures few { IfOk result (λ view. length view.points ≤ 2 * length map.now.channels) }
    {
        map.rows_are_lawful();
        let parts = Parts {
            alloc,
            known: known.copy(alloc)?,
            nodes: Nodes::new(alloc, map.seed()),
        };
        let mut parts = Box::new(alloc, parts)?;
        let nodes = &mut parts.nodes;
        let mut cache = NumberCache::new(alloc);
        let mut edges = Vec::with_capacity(alloc, map.count())?;
        for stored in map.channels().together(true) {
            add_channel(alloc, nodes, &mut cache, &mut edges, known, map, stored)?;
        }
        put_edges(alloc, nodes, &edges)?;
        Ok(View { parts })
    }
}

/// Numbers the nodes of a channel, and appends its edges.
fn add_channel(
    alloc: Global,
    nodes: &mut Nodes,
    cache: &mut NumberCache,
    edges: &mut Vec<Edge>,
    known: &Known,
    map: &Map,
    stored: &ChannelInfo,
) -> Result<(), AllocError>
    requires few { length nodes.old.points.keys + 2 < 2 ^ 32 }
    requires own { stored.now ≡ stored_at map.now stored.now.channel }
    ensures few { OnOk result (length nodes.new.points.keys ≤ length nodes.old.points.keys + 2) }
    ensures kept { OnOk result (KeepsNumbers nodes.old.points.keys nodes.new.points.keys) }
    ensures first { OnOk result (IsNumbered nodes.new.points.keys stored.now.channel.message.node_id_1) }
    ensures second { OnOk result (IsNumbered nodes.new.points.keys stored.now.channel.message.node_id_2) }
    ensures bare { OnOk result (ShowsIn (takes_payments known.now map.now.nodes) [] nodes.old
        → ShowsIn (takes_payments known.now map.now.nodes) [] nodes.new) }
    ensures edges { OnOk result ((point_edges : List PointEdge)
        → AreEdgesOf point_edges nodes.old.points.keys edges.old.items
        → AreEdgesOf (point_edges ++ edges_of_channel map.now.updates stored.now.channel)
        nodes.new.points.keys edges.new.items) }
{
    let first = number_end(alloc, nodes, cache, known, map, *stored.node(false))?;
    let second = number_end(alloc, nodes, cache, known, map, *stored.node(true))?;
    add_direction(edges, stored, false, first, second)?;
    add_direction(edges, stored, true, second, first)?;
    Ok(())
}

/// The index of a node of a channel, which is numbered if it isn't yet. On a hit in the cache, the point isn't hashed.
fn number_end(
    alloc: Global,
    nodes: &mut Nodes,
    cache: &mut NumberCache,
    known: &Known,
    map: &Map,
    point: Point,
) -> Result<usize, AllocError>
    ensures number { IfOk result (λ n. n ≡ number_of nodes.new.points.keys point) }
    ensures numbered { OnOk result (HasNumbered known.now map.now.nodes point nodes.old nodes.new) }
{
    if let Some(number) = cache.number(nodes, &point) {
        return Ok(number);
    }
    let number = number(alloc, nodes, known, map, point)?;
    cache.insert(&point, number, nodes.points.len());
    Ok(number)
}

/// The number of a point, which is numbered if it isn't yet.
fn number(
    alloc: Global,
    nodes: &mut Nodes,
    known: &Known,
    map: &Map,
    point: Point,
) -> Result<usize, AllocError>
    ensures number { IfOk result (λ n. n ≡ number_of nodes.new.points.keys point) }
    ensures numbered { OnOk result (HasNumbered known.now map.now.nodes point nodes.old nodes.new) }
{
    if let Some(number) = nodes.points.get_index_of(&point) {
        return Ok(number);
    }
    let number = nodes.points.len();
    let accepts_payments = takes_payments(known, map, &point);
    nodes.reserve(1)?;
    nodes.add(alloc, point, accepts_payments);
    Ok(number)
}

/// Appends the edge of a direction of a channel, if there is one.
fn add_direction(
    edges: &mut Vec<Edge>,
    stored: &ChannelInfo,
    second: bool,
    from: usize,
    to: usize,
) -> Result<(), AllocError>
    requires from { from < 2 ^ 32 }
    requires to { to < 2 ^ 32 }
    ensures { OnOk result (edges.new.items ≡ edges.old.items ++ option_to_list
        (option_map (λ e. numbered_as e from to)
        (option_and_then (edge_on stored.now.channel) (update_in second stored.now)))) }
{
    let Some(update) = stored.update(second) else {
        return Ok(());
    };
    if let Some(edge) = edge_on(&stored.row(), &update, from, to) {
        edges.push(edge)?;
    }
    Ok(())
}

/// Adds edges to the lists of their nodes.
pub(super) fn put_edges(alloc: Global, nodes: &mut Nodes, edges: &[Edge]) -> Result<(), AllocError>
    requires long { length nodes.old.nodes.items ≡ length nodes.old.points.keys }
    requires edges { (point_edges : List PointEdge)
        × AreEdgesOf point_edges nodes.old.points.keys edges.now }
    ensures points { OnOk result (nodes.new.points.keys ≡ nodes.old.points.keys) }
    ensures shows { OnOk result ((accepts : APoint → Bool) → ShowsIn accepts [] nodes.old
        → (point_edges : List PointEdge) → AreEdgesOf point_edges nodes.old.points.keys edges.now
        → ShowsIn accepts point_edges nodes.new) }
{
    nodes.reserve_for(alloc, edges)?;
    for edge in edges {
        // The contract of `len` says that points are distinct.
        let _ = nodes.points.len();
        let (from, to) = (edge.from as usize, edge.to as usize);
        nodes.reserve_edges(from, to)?;
        nodes.push_edge(from, to, *edge);
    }
    Ok(())
}
