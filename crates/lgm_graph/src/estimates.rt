//! What a payer has learnt of edges.

ghost use Rattle.std.specs.Prelude.{◌≡◌, [], length, slice_get, false, IfOk, OnOk, OnErr};
ghost use Rattle.std.specs.Option.{is_some};
ghost use Rattle.lgm_graph.specs.Estimates.{AreOfDistinctEdges, IsEstimated, IsForgotten, carried, failed, estimate_of, known_of};

use crate::edge_filter::EdgeFilter;
use crate::estimate::{EdgeKey, Estimate, NO_ESTIMATE};
use indexmap::IndexMap;
use lgm_gossip::{Point, Scid};
use std::alloc::{AllocError, Global};
use std::marker::Model;

/// What a payer has learnt of edges, mostly from tries to pay. Contracts see the list of the edges of which something is
/// known, each with what is believed of it.
///
/// An edge is named by its id and the node that it leaves, since a node resolves an id among its own channels. Whether a
/// map has such an edge isn't asked. What is known of an edge stays as it is until the payer changes it or forgets it.
#[derive(Drop)]
pub struct Estimates {
    entries: IndexMap<EdgeKey, Estimate>,
    filter: EdgeFilter,
}

impl Model for Estimates {
    ghost use Rattle.lgm_graph.specs.Estimates.{Entries};

    ghost Value = { Entries };

    ghost use Rattle.lgm_graph.specs.inner.Filtering.{Covers};

    ghost view = { λ e. e.entries.entries };

    ghost invariant = { λ e. Covers e.filter e.entries.entries };
}

impl Estimates {
    /// Nothing is known. Allocates nothing.
    pub fn new(alloc: Global) -> Estimates
        ensures { result ≡ [] }
    {
        Estimates {
            entries: IndexMap::new(alloc),
            filter: EdgeFilter::new(alloc),
        }
    }

    /// What is believed of the edge with an id out of a node; if nothing is known of it, [`NO_ESTIMATE`]. Costs a look at
    /// one bit, and a lookup by the hash of the id if that is set, and allocates nothing.
    #[inline(always)]
    pub fn get(&self, scid: Scid, from: &Point) -> Estimate
        ensures { result ≡ estimate_of self.now scid from.now }
    {
        if !self.filter.may_have(scid, from) {
            return NO_ESTIMATE;
        }
        match self.entries.get(&EdgeKey { scid, from: *from }) {
            Some(estimate) => *estimate,
            None => NO_ESTIMATE,
        }
    }

    /// Sets what is believed of an edge. The first one takes 32 KiB beside its entry. Out of memory changes nothing; of
    /// an edge of which something is known it never comes.
    pub fn set(&mut self, scid: Scid, from: &Point, estimate: Estimate) -> Result<(), AllocError>
        ensures set { OnOk result (IsEstimated self.old scid from.now estimate self.new) }
        ensures new { OnErr result (is_some (known_of self.old scid from.now) ≡ false) }
        ensures stays { OnErr result (self.new ≡ self.old) }
    {
        self.filter.add(scid, from)?;
        self.entries
            .insert(EdgeKey { scid, from: *from }, estimate)?;
        Ok(())
    }

    /// Forgets what is known of an edge, and returns whether something was. The last edge takes its place. Never
    /// allocates.
    pub fn forget(&mut self, scid: Scid, from: &Point) -> bool
        ensures known { result ≡ is_some (known_of self.old scid from.now) }
        ensures forgotten { IsForgotten self.old scid from.now self.new }
        ensures stays { result ≡ false → self.new ≡ self.old }
    {
        self.entries
            .swap_remove(&EdgeKey { scid, from: *from })
            .is_some()
    }

    /// Notes that an edge carried an amount, in msat: it surely carries as much. Out of memory changes nothing; of an
    /// edge of which something is known it never comes.
    pub fn carried(&mut self, scid: Scid, from: &Point, amount: u64) -> Result<(), AllocError>
        ensures carried { OnOk result
            (IsEstimated self.old scid from.now (carried amount (estimate_of self.old scid from.now)) self.new) }
        ensures new { OnErr result (is_some (known_of self.old scid from.now) ≡ false) }
        ensures stays { OnErr result (self.new ≡ self.old) }
    {
        let estimate = self.get(scid, from).carried(amount);
        self.set(scid, from, estimate)
    }

    /// Notes that an edge failed to carry an amount, in msat: it surely carries less. Out of memory changes nothing; of
    /// an edge of which something is known it never comes.
    pub fn failed(&mut self, scid: Scid, from: &Point, amount: u64) -> Result<(), AllocError>
        ensures failed { OnOk result
            (IsEstimated self.old scid from.now (failed amount (estimate_of self.old scid from.now)) self.new) }
        ensures new { OnErr result (is_some (known_of self.old scid from.now) ≡ false) }
        ensures stays { OnErr result (self.new ≡ self.old) }
    {
        let estimate = self.get(scid, from).failed(amount);
        self.set(scid, from, estimate)
    }

    /// The number of edges of which something is known.
    pub fn len(&self) -> usize
        ensures { result ≡ length self.now }
    {
        self.entries.len()
    }

    /// No two entries are of one edge. The call does nothing: its contract is the law.
    pub fn are_of_distinct_edges(&self)
        ensures { AreOfDistinctEdges self.now }
    {
        // The contract of `len` says so of each table.
        let _len = self.entries.len();
    }

    /// The edge at a place below that number, with what is believed of it. Edges stand as something became known of
    /// them; [`Estimates::forget`] changes the places.
    pub fn at(&self, place: usize) -> Option<(EdgeKey, Estimate)>
        ensures { result ≡ slice_get self.now place }
    {
        let (key, estimate) = self.entries.get_index(place)?;
        Some((*key, *estimate))
    }

    /// A copy.
    pub fn copy(&self) -> Result<Estimates, AllocError>
        ensures { IfOk result (λ copy. copy ≡ self.now) }
    {
        Ok(Estimates {
            entries: self.entries.clone()?,
            filter: self.filter.copy()?,
        })
    }
}
