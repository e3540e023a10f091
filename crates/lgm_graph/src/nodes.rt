//! Numbered nodes, and the edges of each.

ghost use Rattle.std.specs.Prelude.{◌≡◌, ◌++◌, ◌∷◌, [], ℕ, ◌+◌, ◌<◌, List, length, map, slice_index_or};
ghost use Rattle.std.specs.Prelude.{OnOk, Option, true, false, ◌≤◌};
ghost use Rattle.std.specs.List.{HoldsAt, list_any};
ghost use Rattle.indexmap.specs.IndexSet.{hasher_of, spare};
ghost use Rattle.lgm_wire.specs.declared.point.Point.{Point as APoint};
ghost use Rattle.lgm_graph.specs.inner.Walk.{HasNumbered};
ghost use Rattle.lgm_store.specs.Rows.{is_point};
ghost use Rattle.lgm_graph.specs.Edges.{takes_payments};
ghost use Rattle.lgm_graph.specs.inner.Lists.{edge_key, IsCut, put_at};
ghost use Rattle.lgm_graph.specs.Graph.{GraphNode, bare_node, number_of, IsNumbered};
ghost use Rattle.lgm_graph.specs.inner.Sound.{graph_in, node_in, nodes_in, HasRoomInto, HasRoomOut, HasPlaces, AreNodes};
ghost use Rattle.lgm_graph.specs.inner.Sound.{changed_at, checked_at, edge_changed, looked_at, is_allowed, is_not_of};

use crate::edge::Edge;
use crate::edges;
use crate::known::Known;
use crate::node::Node;
use indexmap::IndexSet;
use lgm_gossip::{Point, Scid};
use lgm_store::{Map, Seed};
use std::alloc::{AllocError, Global};

/// Points by number, and the node of each.
#[derive(Drop)]
pub(crate) struct Nodes {
    pub(crate) points: IndexSet<Point, Seed>,
    pub(crate) nodes: Vec<Node>,
}

/// Whether a node takes payments. If all features are known, its announcement isn't looked up.
pub(crate) fn takes_payments(known: &Known, map: &Map, node: &Point) -> bool
    ensures { result ≡ takes_payments known.now map.now.nodes node.now }
{
    if known.is_all() {
        return true;
    }
    match map.node(node) {
        Some(row) => known.allows(row.message.features.as_slice()),
        None => true,
    }
}

impl Nodes {
    /// No nodes. Points will be hashed with the seed.
    pub(crate) fn new(alloc: Global, seed: Seed) -> Nodes
        ensures points { result.points.keys ≡ [] }
        ensures hasher { hasher_of result.points ≡ seed }
        ensures nodes { nodes_in result ≡ [] }
    {
        Nodes {
            points: IndexSet::with_hasher(alloc, seed),
            nodes: Vec::new(alloc),
        }
    }

    /// The number of a numbered point.
    pub(crate) fn number_of(&self, point: &Point) -> usize
        requires { IsNumbered self.now.points.keys point.now }
        ensures number { result ≡ number_of self.now.points.keys point.now }
        ensures less { result < length self.now.points.keys }
    {
        match self.points.get_index_of(point) {
            Some(number) => number,
            None => unreachable!(),
        }
    }

    /// Whether a point has this number.
    pub(crate) fn has_number(&self, point: &Point, number: usize) -> bool
        ensures number { result ≡ true → number ≡ number_of self.now.points.keys point.now }
        ensures numbered { result ≡ true → IsNumbered self.now.points.keys point.now }
    {
        // The contract of `len` says that points are distinct.
        let _ = self.points.len();
        match self.points.get_index(number) {
            Some(stored) => *point == *stored,
            None => false,
        }
    }

    /// Reserves capacity for this many more nodes.
    pub(crate) fn reserve(&mut self, more: usize) -> Result<(), AllocError>
        ensures same { (known : Option (List ℕ)) → graph_in known self.new ≡ graph_in known self.old }
        ensures places { OnOk result (HasPlaces more self.new) }
    {
        self.points.reserve(more)?;
        self.nodes.reserve(more)
    }

    /// Numbers another point.
    pub(crate) fn add(&mut self, alloc: Global, point: Point, accepts_payments: bool)
        requires room { HasPlaces 1 self.old }
        requires other { list_any (is_point point) self.old.points.keys ≡ false }
        ensures points { self.new.points.keys ≡ self.old.points.keys ++ point ∷ [] }
        ensures nodes { nodes_in self.new ≡ nodes_in self.old ++ bare_node accepts_payments ∷ [] }
        ensures places { (more : ℕ) → HasPlaces (more + 1) self.old → HasPlaces more self.new }
    {
        push_point(&mut self.points, point);
        self.nodes.push_reserved(Node::new(alloc, accepts_payments));
    }

    /// Reserves capacity for exactly these edges at their nodes, so that no list grows step by step.
    pub(crate) fn reserve_for(&mut self, alloc: Global, edges: &[Edge]) -> Result<(), AllocError>
        ensures same { (known : Option (List ℕ)) → graph_in known self.new ≡ graph_in known self.old }
    {
        let degrees = degrees(alloc, self.points.len(), edges)?;
        reserve_all(&mut self.nodes, &degrees)
    }

    /// Reserves capacity for one more edge from one node to another.
    pub(crate) fn reserve_edges(&mut self, from: usize, to: usize) -> Result<(), AllocError>
        requires from { from < length self.old.nodes.items }
        requires to { to < length self.old.nodes.items }
        ensures same { (known : Option (List ℕ)) → graph_in known self.new ≡ graph_in known self.old }
        ensures long { length self.new.nodes.items ≡ length self.old.nodes.items }
        ensures into { OnOk result (HoldsAt HasRoomInto self.new.nodes.items to) }
        ensures leaving { OnOk result (HoldsAt HasRoomOut self.new.nodes.items from) }
    {
        self.nodes[to].into.reserve(1)?;
        self.nodes[from].out.reserve(1)
    }

    /// Appends an edge at both of its nodes.
    pub(crate) fn push_edge(&mut self, from: usize, to: usize, edge: Edge)
        requires from { from < length self.old.nodes.items }
        requires to { to < length self.old.nodes.items }
        requires into { HoldsAt HasRoomInto self.old.nodes.items to }
        requires leaving { HoldsAt HasRoomOut self.old.nodes.items from }
        ensures points { self.new.points.keys ≡ self.old.points.keys }
        ensures nodes { nodes_in self.new ≡ edge_changed from to (λ edges. edges ++ edge ∷ []) (nodes_in self.old) }
    {
        let copy = edge;
        self.nodes[to].into.push_reserved(copy);
        self.nodes[from].out.push_reserved(edge);
    }

    /// At both of its nodes, inserts an edge or replaces the one with its id and direction, or removes that one.
    pub(crate) fn put_edge(
        &mut self,
        from: usize,
        to: usize,
        scid: Scid,
        second: bool,
        edge: Option<Edge>,
    )
        requires from { from < length self.old.nodes.items }
        requires to { to < length self.old.nodes.items }
        requires into { HoldsAt HasRoomInto self.old.nodes.items to }
        requires leaving { HoldsAt HasRoomOut self.old.nodes.items from }
        requires cut_into { IsCut (edge_key scid second)
            (slice_index_or (nodes_in self.old) to (bare_node false)).into }
        requires cut_out { IsCut (edge_key scid second)
            (slice_index_or (nodes_in self.old) from (bare_node false)).out }
        ensures points { self.new.points.keys ≡ self.old.points.keys }
        ensures nodes { nodes_in self.new ≡ edge_changed from to (λ edges. put_at (edge_key scid second) edges edge)
            (nodes_in self.old) }
    {
        let copy = edge;
        edges::put(&mut self.nodes[to].into, scid, second, copy);
        edges::put(&mut self.nodes[from].out, scid, second, edge);
    }

    /// Checks the features of a node anew, if it is numbered.
    pub(crate) fn refresh_features(&mut self, known: &Known, map: &Map, node: &Point)
        requires { length self.old.nodes.items ≡ length self.old.points.keys }
        ensures points { self.new.points.keys ≡ self.old.points.keys }
        ensures nodes { (before : APoint → GraphNode) → AreNodes before self.old
            → AreNodes (changed_at node.now (checked_at known.now map.now.nodes) before) self.new }
    {
        // The contract of `len` says that points are distinct.
        let _ = self.points.len();
        if let Some(number) = self.points.get_index_of(node) {
            self.nodes[number].accepts_payments = takes_payments(known, map, node);
        }
    }

    /// Removes the edges of a closed channel at a node, and checks the node's features anew.
    pub(crate) fn close_at(&mut self, known: &Known, map: &Map, node: &Point, scid: Scid)
        requires numbered { IsNumbered self.old.points.keys node.now }
        requires long { length self.old.nodes.items ≡ length self.old.points.keys }
        ensures points { self.new.points.keys ≡ self.old.points.keys }
        ensures long { length self.new.nodes.items ≡ length self.old.nodes.items }
        ensures nodes { (before : APoint → GraphNode) → AreNodes before self.old
            → AreNodes (changed_at node.now (looked_at known.now map.now.nodes (is_not_of scid)) before) self.new }
    {
        // The contract of `len` says that points are distinct.
        let _ = self.points.len();
        let number = self.number_of(node);
        self.nodes[number].close(scid, takes_payments(known, map, node));
    }

    /// Removes the edges to banned nodes at a node, if it is numbered, and checks its features anew.
    pub(crate) fn ban_at(&mut self, known: &Known, map: &Map, node: &Point)
        requires { length self.old.nodes.items ≡ length self.old.points.keys }
        ensures points { self.new.points.keys ≡ self.old.points.keys }
        ensures long { length self.new.nodes.items ≡ length self.old.nodes.items }
        ensures nodes { (before : APoint → GraphNode) → AreNodes before self.old
            → AreNodes (changed_at node.now (looked_at known.now map.now.nodes
            (is_allowed self.old.points.keys map.now.banned)) before) self.new }
    {
        // The contract of `len` says that points are distinct.
        let _ = self.points.len();
        if let Some(number) = self.points.get_index_of(node) {
            self.nodes[number].ban(&self.points, map, takes_payments(known, map, node));
        }
    }

    /// Numbers a point, unless it is numbered.
    pub(crate) fn number(&mut self, alloc: Global, known: &Known, stored: &Map, point: Point)
        requires { HasPlaces 1 self.old }
        ensures numbered { HasNumbered known.now stored.now.nodes point self.old self.new }
        ensures places { (more : ℕ) → HasPlaces (more + 1) self.old → HasPlaces more self.new }
    {
        if self.points.contains(&point) {
            return;
        }
        let accepts_payments = takes_payments(known, stored, &point);
        self.add(alloc, point, accepts_payments);
    }
}

/// How many edges a node has.
#[derive(Clone, Copy)]
struct Degree {
    into: u32,
    out: u32,
}

/// How many of some edges each of this many nodes has.
fn degrees(alloc: Global, nodes: usize, edges: &[Edge]) -> Result<Vec<Degree>, AllocError> {
    let mut degrees = vec![in alloc; Degree { into: 0, out: 0 }; nodes]?;
    for edge in edges {
        if let Some(degree) = degrees.get_mut(edge.to as usize) {
            degree.into = degree.into.saturating_add(1);
        }
        if let Some(degree) = degrees.get_mut(edge.from as usize) {
            degree.out = degree.out.saturating_add(1);
        }
    }
    Ok(degrees)
}

/// Reserves capacity for exactly as many more edges at each node.
fn reserve_all(nodes: &mut Vec<Node>, degrees: &[Degree]) -> Result<(), AllocError>
    ensures { map node_in nodes.new.items ≡ map node_in nodes.old.items }
{
    for number in 0..nodes.len() {
        if let Some(degree) = degrees.get(number) {
            nodes[number].reserve_exact(degree.into, degree.out)?;
        }
    }
    Ok(())
}

fn push_point(points: &mut IndexSet<Point, Seed>, point: Point)
    requires room { 1 ≤ spare points.old }
    requires other { list_any (is_point point) points.old.keys ≡ false }
    ensures keys { points.new.keys ≡ points.old.keys ++ point ∷ [] }
    ensures places { spare points.old ≤ spare points.new + 1 }
{
    match points.insert(point) {
        Ok(_) => {}
        Err(_) => unreachable!(),
    }
}
