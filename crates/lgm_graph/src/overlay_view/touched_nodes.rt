//! The nodes that an overlay touches.

ghost use Rattle.std.specs.Prelude.{◌≡◌, ◌≢◌, ◌++◌, ◌∷◌, [], ◌+◌, ◌<◌, ◌≤◌, ◌^◌, suc, ℕ, Bool, false, Some, List, Contains};
ghost use Rattle.std.specs.Prelude.{length, slice_get, slice_index_or, IfOk, OnOk};
ghost use Rattle.std.specs.Option.{option_copied};
ghost use Rattle.lgm_graph.specs.Graph.{edges_leaving};
ghost use Rattle.lgm_graph.specs.inner.Overlaying.{NodeOverrides, Touched, ArePlaced, IsTouchedMore, LeadsTo, IsReached, AreReached, applied};
ghost use Rattle.lgm_graph.specs.Places.{at_place, place_of};
ghost use Rattle.lgm_graph.specs.inner.Overlaying.{overrides_at, overlaid_by, most_in, is_extra_in};

use super::overrides::Override;
use super::touched_node::TouchedNode;
use crate::edge::Edge;
use crate::node_table::{no_places, place_in};
use crate::routing_graph::RoutingGraph;
use crate::view::View;
use lgm_gossip::Scid;
use std::alloc::{AllocError, Global};
use std::marker::Model;

/// The nodes that an overlay touches: those that it overrides, and then those to which edges lead that it
/// changes. A table finds them by their numbers.
#[derive(Drop)]
pub(crate) struct TouchedNodes {
    /// By node number, the place of the node: from 1, or 0 if it isn't touched.
    places: Vec<u32>,
    nodes: Vec<TouchedNode>,
}

impl Model for TouchedNodes {
    ghost use Rattle.lgm_graph.specs.inner.Overlaying.{Touched, ArePlaced};

    ghost Value = { Touched };

    ghost view = { λ t. record { places = t.places.items; nodes = t.nodes.items } };

    ghost invariant = { λ t. ArePlaced (record { places = t.places.items; nodes = t.nodes.items }) };
}

impl TouchedNodes {
    /// None of this many nodes is touched.
    pub(super) fn new(alloc: Global, count: usize) -> Result<TouchedNodes, AllocError>
        requires { count < 2 ^ 32 }
        ensures long { IfOk result (λ touched. length touched.places ≡ count) }
        ensures none { IfOk result (λ touched. (number : ℕ) → place_of touched number ≡ 0) }
        ensures nodes { IfOk result (λ touched. touched.nodes ≡ []) }
    {
        Ok(TouchedNodes {
            places: no_places(alloc, count)?,
            nodes: Vec::new(alloc),
        })
    }

    /// The nodes, in the order in which they were touched.
    pub(super) fn as_slice(&self) -> &[TouchedNode]
        ensures nodes { result.now ≡ self.now.nodes }
        ensures placed { ArePlaced self.now }
    {
        self.nodes.as_slice()
    }

    /// The place of a node.
    pub(super) fn place(&self, number: u32) -> u32
        ensures { result ≡ place_of self.now number }
    {
        place_in(&self.places, number)
    }

    /// A touched node.
    pub(super) fn get(&self, number: u32) -> Option<&TouchedNode>
        ensures { option_copied result ≡ at_place self.now.nodes (place_of self.now number) }
    {
        let place = self.place(number) as usize;
        if place == 0 {
            return None;
        }
        self.nodes.get(place - 1)
    }

    /// What an edge carries at most.
    pub(super) fn most(&self, edge: &Edge) -> u64
        ensures { result ≡ most_in (overrides_at self.now edge.now.from).terms edge.now.scid edge.now.max }
    {
        let from = edge.from;
        match self.get(from) {
            Some(node) => node.most(edge),
            None => edge.max,
        }
    }

    /// Whether an extra edge out of a node has an id.
    pub(super) fn names(&self, number: u32, scid: Scid) -> bool
        ensures { result ≡ is_extra_in (overrides_at self.now number).terms scid }
    {
        match self.get(number) {
            Some(node) => node.names(scid),
            None => false,
        }
    }

    /// An edge of the map over the overlay, if it is used.
    pub(super) fn overlaid(&self, edge: &Edge) -> Option<Edge>
        ensures { result ≡ overlaid_by self.now edge.now }
    {
        match self.get(edge.from) {
            Some(node) => node.overlaid(edge),
            None => Some(*edge),
        }
    }

    /// Whether an edge of the map isn't as it was.
    fn changes(&self, edge: &Edge) -> bool
        ensures { result ≡ false → overlaid_by self.now edge.now ≡ Some edge.now }
    {
        match self.overlaid(edge) {
            Some(overlaid) => overlaid.max != edge.max,
            None => true,
        }
    }

    /// Touches a node, and returns its index.
    fn touch(&mut self, alloc: Global, number: u32) -> Result<usize, AllocError>
        requires { number < length self.old.places }
        ensures more { OnOk result (IsTouchedMore self.old self.new) }
        ensures there { IfOk result (λ k. place_of self.new number ≡ suc k) }
        ensures within { IfOk result (λ k. k < length self.new.nodes) }
    {
        let place = self.place(number) as usize;
        if place != 0 {
            return Ok(place - 1);
        }
        let index = self.nodes.len();
        self.nodes.push(TouchedNode::new(alloc, number))?;
        self.places[number as usize] = index as u32 + 1;
        Ok(index)
    }

    /// Applies one more override to a node.
    pub(super) fn apply(
        &mut self,
        alloc: Global,
        number: u32,
        change: Override,
    ) -> Result<(), AllocError>
        requires { number < length self.old.places }
        ensures long { OnOk result (length self.new.places ≡ length self.old.places) }
        ensures own { OnOk result (overrides_at self.new number ≡ applied (overrides_at self.old number) change) }
        ensures others { OnOk result ((other : ℕ) → other ≢ number → overrides_at self.new other ≡ overrides_at self.old other) }
    {
        let index = self.touch(alloc, number)?;
        self.nodes[index].apply(change)?;
        Ok(())
    }

    /// Touches the node to which an edge of the map leads, unless the edge is as it was.
    fn touch_target(&mut self, alloc: Global, edge: &Edge) -> Result<(), AllocError>
        requires { edge.now.to < length self.old.places }
        ensures more { OnOk result (IsTouchedMore self.old self.new) }
        ensures leads { OnOk result (LeadsTo self.new edge.now) }
    {
        if self.changes(edge) {
            self.touch(alloc, edge.to)?;
        }
        Ok(())
    }

    /// Touches each node to which an edge leads that leaves one of the nodes so far and isn't as it was.
    pub(super) fn touch_targets(&mut self, alloc: Global, view: &View) -> Result<(), AllocError>
        requires { length view.now.points ≤ length self.old.places }
        ensures more { OnOk result (IsTouchedMore self.old self.new) }
        ensures reached { OnOk result (AreReached view.now self.new (length self.old.nodes)) }
    {
        for k in 0..self.nodes.len() {
            self.touch_targets_of(alloc, view, k)?;
        }
        Ok(())
    }

    /// The same for the edges of one of them.
    fn touch_targets_of(
        &mut self,
        alloc: Global,
        view: &View,
        index: usize,
    ) -> Result<(), AllocError>
        requires long { length view.now.points ≤ length self.old.places }
        requires within { index < length self.old.nodes }
        ensures more { OnOk result (IsTouchedMore self.old self.new) }
        ensures reached { OnOk result (IsReached view.now self.new index) }
    {
        // The contract of `nodes` says that edges lead to numbered nodes.
        view.nodes();
        let node = self.nodes[index].node();
        for edge in view.edges_leaving(node) {
            self.touch_target(alloc, edge)?;
        }
        Ok(())
    }

    /// The places, by node number.
    pub(super) fn into_places(self) -> Vec<u32>
        ensures places { result.items ≡ self.places }
        ensures placed { ArePlaced self }
    {
        let TouchedNodes { places, .. } = self;
        places
    }
}
