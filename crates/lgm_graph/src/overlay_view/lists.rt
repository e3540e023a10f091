//! The lists of the nodes that an overlay touches.

ghost use Rattle.std.specs.Prelude.{◌≡◌, ◌++◌, ◌≤◌, map, take, length, option_to_list, IfOk, OnOk};
ghost use Rattle.lgm_graph.specs.Graph.{node_at};
ghost use Rattle.lgm_graph.specs.inner.Overlaying.{edges_in, overlaid_list, list_or};

use super::touched_nodes::TouchedNodes;
use crate::edge::Edge;
use crate::routing_graph::RoutingGraph;
use crate::view::View;
use std::alloc::{AllocError, Global};

/// The edges into a node or out of it, over the overlay.
#[derive(Drop)]
pub(super) struct Edges {
    edges: Vec<Edge>,
}

/// Appends an edge, if there is one.
#[inline(always)]
fn push(edges: &mut Vec<Edge>, edge: Option<Edge>) -> Result<(), AllocError>
    ensures { OnOk result (edges.new.items ≡ edges.old.items ++ option_to_list edge) }
{
    if let Some(edge) = edge {
        edges.push(edge)?;
    }
    Ok(())
}

/// Extra edges, and those of a list over an overlay.
fn overlaid(
    alloc: Global,
    touched: &TouchedNodes,
    list: &[Edge],
    extra: &[Edge],
) -> Result<Edges, AllocError>
    ensures { IfOk result (λ overlaid. edges_in overlaid ≡ overlaid_list touched.now list.now extra.now) }
{
    let mut edges = Vec::with_capacity(alloc, list.len().saturating_add(extra.len()))?;
    for edge in extra {
        edges.push(*edge)?;
    }
    for edge in list {
        push(&mut edges, touched.overlaid(edge))?;
    }
    Ok(Edges { edges })
}

/// The edges into each touched node.
pub(super) fn lists_into(
    alloc: Global,
    touched: &TouchedNodes,
    view: &View,
) -> Result<Vec<Edges>, AllocError>
    ensures { IfOk result (λ lists. map edges_in lists.items
        ≡ map (λ local. overlaid_list touched.now (node_at view.now local.node).into local.entering) touched.now.nodes) }
{
    let mut lists = Vec::new(alloc);
    for node in touched.as_slice() {
        let list = view.all_into(node.node());
        lists.push(overlaid(alloc, touched, list, node.entering())?)?;
    }
    Ok(lists)
}

/// The edges out of each of the first touched nodes.
pub(super) fn lists_out(
    alloc: Global,
    touched: &TouchedNodes,
    view: &View,
    count: usize,
) -> Result<Vec<Edges>, AllocError>
    requires { count ≤ length touched.now.nodes }
    ensures { IfOk result (λ lists. map edges_in lists.items
        ≡ map (λ local. overlaid_list touched.now (node_at view.now local.node).out local.leaving)
        (take count touched.now.nodes)) }
{
    let mut lists = Vec::new(alloc);
    for node in &touched.as_slice()[..count] {
        let list = view.edges_leaving(node.node());
        lists.push(overlaid(alloc, touched, list, node.leaving())?)?;
    }
    Ok(lists)
}

/// A node's own list, or one that is lent.
#[inline(always)]
pub(super) fn list_or<'b>(own: &'b [Edges], place: u32, lent: &'b [Edge]) -> &'b [Edge]
    ensures { result.now ≡ list_or (map edges_in own.now) place lent.now }
{
    if place == 0 {
        return lent;
    }
    match own.get(place as usize - 1) {
        Some(list) => list.edges.as_slice(),
        None => lent,
    }
}
