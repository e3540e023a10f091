//! The nodes that a forward search reached.

ghost use Rattle.std.specs.Prelude.{◌≡◌, ◌≢◌, ◌^◌, ◌<◌, ◌≤◌, ℕ, Some, [], false, length, OnOk, OnErr, IfOk};
ghost use Rattle.std.specs.Option.{option_copied};
ghost use Rattle.lgm_route.specs.inner.Bounding.{IsLowered, IsShut, IsRadius, is_closed};
ghost use Rattle.lgm_route.specs.inner.Reaching.{found, fees_in, closed_in};
ghost use Rattle.lgm_graph.specs.Places.{place_of};
ghost use Rattle.lgm_route.specs.inner.Searching.{number_at};

use lgm_gossip::Scid;
use lgm_graph::{no_places, place_in};
use std::alloc::{AllocError, Global};
use std::marker::Model;

/// For how many nodes that are reached there is room at first.
const ROOM: usize = 4_096;

/// What a forward search knows of a node.
#[derive(Clone, Copy)]
pub(crate) struct Reached {
    /// The fees to it, in msat.
    pub fees: u64,
    /// The channel over which it was reached for these. No contract depends on it.
    pub over: Scid,
    /// Its number.
    pub node: u32,
    /// Whether the edges out of it were relaxed since it was reached for these.
    pub is_closed: bool,
}

impl Reached {
    /// The lesser of a number and the fees, if the node is open.
    fn lesser(&self, most: u64) -> u64
        ensures low { result ≤ most }
        ensures least { self.now.is_closed ≡ false → result ≤ self.now.fees }
    {
        if self.is_closed {
            most
        } else {
            most.min(self.fees)
        }
    }
}

/// The nodes that a forward search reached, which it finds by their numbers. Each node of the graph costs four bytes, and
/// one that was reached 24 more. The fees to the others are 2^64 - 1, and they are open.
#[derive(Drop)]
pub(crate) struct ReachedNodes {
    /// By node number, the place of the node: from 1, or 0 if it wasn't reached.
    places: Vec<u32>,
    nodes: Vec<Reached>,
}

impl Model for ReachedNodes {
    ghost use Rattle.lgm_route.specs.inner.Reaching.{Table, ArePlaced};

    ghost Value = { Table };

    ghost view = { λ r. record { places = r.places.items; nodes = r.nodes.items } };

    ghost invariant = { λ r. ArePlaced (record { places = r.places.items; nodes = r.nodes.items }) };
}

impl ReachedNodes {
    /// None of this many nodes was reached.
    pub(crate) fn new(alloc: Global, count: usize) -> Result<ReachedNodes, AllocError>
        requires { count < 2 ^ 32 }
        ensures long { IfOk result (λ reached. length reached.places ≡ count) }
        ensures opened { IfOk result (λ reached. (node : ℕ) → is_closed (closed_in reached) node ≡ false) }
    {
        Ok(ReachedNodes {
            places: no_places(alloc, count)?,
            nodes: Vec::with_capacity(alloc, count.min(ROOM))?,
        })
    }

    /// No nodes.
    pub(crate) fn none(alloc: Global) -> ReachedNodes
        ensures { result.places ≡ [] }
    {
        ReachedNodes {
            places: Vec::new(alloc),
            nodes: Vec::new(alloc),
        }
    }

    /// The number of nodes, reached or not.
    pub(crate) fn len(&self) -> usize
        ensures { result ≡ length self.now.places }
    {
        self.places.len()
    }

    /// The place of a node: from 1, or 0 if it wasn't reached.
    #[inline(always)]
    fn place_of(&self, node: u32) -> usize
        ensures { result ≡ place_of self.now node }
    {
        place_in(&self.places, node) as usize
    }

    /// What is known of a node, if it was reached.
    #[inline(always)]
    fn get(&self, node: u32) -> Option<&Reached>
        ensures { option_copied result ≡ found self.now node }
    {
        let place = self.place_of(node);
        if place == 0 {
            return None;
        }
        self.nodes.get(place - 1)
    }

    /// The fees to a node, in msat; 0 for an unknown number.
    #[inline(always)]
    pub(crate) fn distance_to(&self, node: u32) -> u64
        ensures { result ≡ number_at (fees_in self.now) node }
    {
        if self.places.len() <= node as usize {
            return 0;
        }
        match self.get(node) {
            Some(reached) => reached.fees,
            None => u64::MAX,
        }
    }

    /// The channel over which a node was reached, if it was for no more than these fees.
    pub(crate) fn channel_to(&self, node: u32, most: u64) -> Option<Scid> {
        let reached = self.get(node)?;
        if most < reached.fees {
            return None;
        }
        Some(reached.over)
    }

    /// Whether a node was reached, and isn't closed.
    pub(crate) fn is_open(&self, node: u32) -> bool {
        match self.get(node) {
            Some(reached) => !reached.is_closed,
            None => false,
        }
    }

    /// Lowers the fees to a node, which is reached over this channel, if they are higher, and returns them then. The
    /// node is open then. Out of memory changes nothing.
    #[inline(always)]
    pub(crate) fn lower(
        &mut self,
        node: u32,
        amount: u128,
        over: Scid,
    ) -> Result<Option<u64>, AllocError>
        ensures long { length self.new.places ≡ length self.old.places }
        ensures lowered { IfOk result (λ _. IsLowered (fees_in self.old) (closed_in self.old) node amount
            (fees_in self.new) (closed_in self.new)) }
        ensures stays { OnErr result (self.new ≡ self.old) }
    {
        if self.distance_to(node) as u128 <= amount {
            return Ok(None);
        }
        let fees = amount as u64;
        self.put(Reached {
            fees,
            over,
            node,
            is_closed: false,
        })?;
        Ok(Some(fees))
    }

    /// Sets what is known of a node. Out of memory changes nothing.
    #[inline(always)]
    fn put(&mut self, reached: Reached) -> Result<(), AllocError>
        requires { reached.node < length self.old.places }
        ensures long { length self.new.places ≡ length self.old.places }
        ensures here { OnOk result (found self.new reached.node ≡ Some reached) }
        ensures others { OnOk result ((other : ℕ) → other ≢ reached.node → found self.new other ≡ found self.old other) }
        ensures stays { OnErr result (self.new ≡ self.old) }
    {
        let node = reached.node;
        let place = self.place_of(node);
        if place == 0 {
            let index = self.nodes.len();
            self.nodes.push(reached)?;
            self.places[node as usize] = index as u32 + 1;
            return Ok(());
        }
        self.nodes[place - 1] = reached;
        Ok(())
    }

    /// Closes a node, if it was reached.
    pub(crate) fn close(&mut self, node: u32)
        ensures long { length self.new.places ≡ length self.old.places }
        ensures shut { IsShut (fees_in self.old) (closed_in self.old) node (fees_in self.new) (closed_in self.new) }
    {
        let place = self.place_of(node);
        if place == 0 {
            return;
        }
        let reached = self.nodes[place - 1];
        self.nodes[place - 1] = Reached {
            is_closed: true,
            ..reached
        };
    }

    /// The least fees to an open node, or 2^64 - 1.
    pub(crate) fn radius(&self) -> u64
        ensures { IsRadius (fees_in self.now) (closed_in self.now) result }
    {
        let mut least = u64::MAX;
        for node in &self.nodes {
            least = node.lesser(least);
        }
        least
    }
}
