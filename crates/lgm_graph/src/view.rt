//! The view of a map.

ghost use Rattle.std.specs.Prelude.{◌≡◌, ◌↔◌, Contains, ◌+◌, ◌-◌, ◌^◌, ◌<◌, ◌≤◌};
ghost use Rattle.std.specs.Prelude.{length, min, slice_get, IfOk, OnOk, OnErr};
ghost use Rattle.std.specs.List.{position};
ghost use Rattle.std.specs.List.Sorted.{IsPermutation};
ghost use Rattle.std.specs.Option.{option_copied};
ghost use Rattle.lgm_store.specs.Rows.{Rows, is_point};
ghost use Rattle.lgm_store.specs.History.{absorbed};
ghost use Rattle.lgm_graph.specs.Edges.{PointEdge, edges_of};
ghost use Rattle.lgm_graph.specs.Graph.{AreListed, IsGraphOf, edges, point_edges};
ghost use Rattle.lgm_graph.specs.Graph.{node_at, takes_at, edges_into, edges_leaving};
ghost use Rattle.lgm_graph.specs.inner.Sound.{IsSound};

mod affected_nodes;
mod apply;
mod build;
mod number_cache;

use crate::edge::Edge;
use crate::known::Known;
use crate::nodes::Nodes;
use crate::routing_graph::RoutingGraph;
use lgm_gossip::Point;
use lgm_store::{Map, Op, Seed};
use std::alloc::{AllocError, Global};
use std::marker::Model;

/// The maximum number of channels of a map whose view is built: the numbers of its nodes have 32 bits.
pub const MAX_CHANNELS: usize = 2_000_000_000;

/// The edges of a map, between numbered nodes. Contracts see the points by number, and the edges into and out of each
/// node. The parts are in a box, so that a view is moved in one word.
#[derive(Drop)]
pub struct View {
    parts: Box<Parts>,
}

/// The parts of a view.
#[derive(Drop)]
struct Parts {
    alloc: Global,
    known: Known,
    nodes: Nodes,
}

impl Model for View {
    ghost use Rattle.lgm_graph.specs.Graph.{Graph};

    ghost Value = { Graph };

    ghost use Rattle.lgm_graph.specs.inner.Sound.{graph_in, IsSound};

    ghost view = { λ v. graph_in v.parts.value.known v.parts.value.nodes };

    ghost invariant = { λ v. IsSound (graph_in v.parts.value.known v.parts.value.nodes) };
}

impl RoutingGraph for View {
    ghost graph = { λ view. view };

    fn nodes(&self) -> usize {
        self.parts.nodes.points.len()
    }

    fn node_number(&self, point: &Point) -> Option<u32> {
        let number = self.parts.nodes.points.get_index_of(point)?;
        Some(number as u32)
    }

    fn point(&self, number: u32) -> Option<&Point> {
        self.parts.nodes.points.get_index(number as usize)
    }

    fn edges_into(&self, number: u32) -> &[Edge] {
        match self.parts.nodes.nodes.get(number as usize) {
            Some(node) => node.open_into(),
            None => &[],
        }
    }

    fn edges_leaving(&self, number: u32) -> &[Edge] {
        match self.parts.nodes.nodes.get(number as usize) {
            Some(node) => node.out.as_slice(),
            None => &[],
        }
    }
}

impl View {
    /// Whether the node with an index takes payments: it has no announcement, or one whose even features are known.
    /// False for an index that no node has.
    pub fn takes_payments(&self, number: u32) -> bool
        ensures { result ≡ takes_at self.now number }
    {
        match self.parts.nodes.nodes.get(number as usize) {
            Some(node) => node.accepts_payments,
            None => false,
        }
    }

    /// The edges into the node with an index, by id and direction, whether or not it takes payments.
    pub(crate) fn all_into(&self, number: u32) -> &[Edge]
        ensures { result.now ≡ (node_at self.now number).into }
    {
        match self.parts.nodes.nodes.get(number as usize) {
            Some(node) => node.into.as_slice(),
            None => &[],
        }
    }
}

impl View {
    /// The number of edges. It saturates at 2^64 - 1, which no memory has room for.
    pub fn edge_count(&self) -> usize
        ensures { result ≡ min (length (edges self.now)) (2 ^ 64 - 1) }
    {
        let nodes = self.nodes();
        let mut count: usize = 0;
        for number in 0..nodes {
            count = count.saturating_add(self.edges_into(number as u32).len());
        }
        count
    }

    /// The edge at an index below that number, in the order of the nodes that they lead to. Traverses the nodes up to
    /// that one.
    pub fn edge(&self, place: usize) -> Option<&Edge>
        ensures { option_copied result ≡ slice_get (edges self.now) place }
    {
        // The contract of `nodes` says that each number has a list.
        let nodes = self.nodes();
        let mut left = place;
        for number in 0..nodes {
            let edges = self.edges_into(number as u32);
            if left < edges.len() {
                return Some(&edges[left]);
            }
            left -= edges.len();
        }
        None
    }
}

impl View {
    /// A view of rows has exactly their edges between points, each once. The call does nothing: its contract is the
    /// law.
    pub fn shows_the_edges(&self)
        ensures found { (rows : Rows) → IsGraphOf rows self.now → (edge : PointEdge)
            → Contains (point_edges self.now) edge ↔ Contains (edges_of self.now.known rows) edge }
        ensures once { (rows : Rows) → IsGraphOf rows self.now
            → IsPermutation (edges_of self.now.known rows) (point_edges self.now) }
    {
        // Different points have different numbers.
        self.nodes();
    }
}

impl View {
    /// Some edges are in the lists of both of their nodes. The call does nothing.
    pub(crate) fn is_sound(&self)
        ensures { IsSound self.now }
    {
        // The first use of a field makes known what holds of every view.
        let _nodes = &self.parts.nodes;
    }

    /// The seed by which the points are hashed: that of the map of which it was built.
    pub fn seed(&self) -> Seed {
        *self.parts.nodes.points.hasher()
    }

    /// Applies an operation to a map and its view, which is then the view of the new map. It numbers at most two more
    /// points, and a point keeps its number when its last channel is removed. Out of memory leaves map and view
    /// unchanged.
    ///
    /// An update costs a search in the edges of each of its two nodes. If it enables or disables its direction, or is the
    /// first of it, the edges behind it move there, 48 bytes each. A node announcement costs one check of its features, a
    /// close a traversal of the edges of its two nodes, and a ban one of the edges of the nodes that lose channels.
    pub fn apply(&mut self, map: &mut Map, op: &Op) -> Result<(), AllocError>
        requires few { length self.old.points ≤ 4294967290 }
        requires beside { IsGraphOf map.old self.old }
        ensures map { OnOk result (map.new ≡ absorbed map.old op.now) }
        ensures beside { OnOk result (IsGraphOf map.new self.new) }
        ensures known { self.new.known ≡ self.old.known }
        ensures few { length self.new.points ≤ length self.old.points + 2 }
        ensures map_stays { OnErr result (map.new ≡ map.old) }
        ensures stays { OnErr result (self.new ≡ self.old) }
    {
        let parts = &mut *self.parts;
        apply::apply(parts.alloc, &parts.known, &mut parts.nodes, map, op)?;
        Ok(())
    }
}
