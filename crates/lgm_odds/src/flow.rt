//! A flow between a payer and a payee, by which cuts are sought. Nothing is promised of it: what it finds is checked
//! afterwards.

ghost use Rattle.std.specs.Prelude.{◌≤◌, ◌≡◌};

use crate::liquidity::CutEdge;
use indexmap::IndexMap;
use lgm_gossip::{Point, Scid};
use lgm_graph::EdgeKey;
use std::alloc::{AllocError, Global};

/// What flows over edges, in msat.
#[derive(Drop)]
pub(crate) struct Flow {
    amounts: IndexMap<EdgeKey, u64>,
}

impl Flow {
    /// Nothing flows. Allocates nothing.
    pub(crate) fn new(alloc: Global) -> Flow {
        Flow {
            amounts: IndexMap::new(alloc),
        }
    }

    /// What flows over the edge with an id out of a node, in msat.
    fn amount(&self, scid: Scid, from: &Point) -> u64 {
        match self.amounts.get(&EdgeKey { scid, from: *from }) {
            Some(amount) => *amount,
            None => 0,
        }
    }

    /// What an edge can carry beside it, in msat: what flows the other way over its channel can be taken back.
    pub(crate) fn room(&self, edge: &CutEdge) -> u64 {
        let along = self.amount(edge.scid, &edge.from);
        let against = self.amount(edge.scid, &edge.to);
        edge.room.saturating_sub(along).saturating_add(against)
    }

    /// Adds an amount, in msat, over an edge: it first takes back what flows the other way.
    pub(crate) fn add(&mut self, edge: &CutEdge, amount: u64) -> Result<(), AllocError> {
        let against = self.amount(edge.scid, &edge.to);
        let back = against.min(amount);
        if 0 < back {
            self.set(edge.scid, edge.to, against - back)?;
        }
        let along = self.amount(edge.scid, &edge.from);
        self.set(edge.scid, edge.from, along.saturating_add(amount - back))
    }

    /// Sets what flows over the edge with an id out of a node.
    fn set(&mut self, scid: Scid, from: Point, amount: u64) -> Result<(), AllocError> {
        self.amounts.insert(EdgeKey { scid, from }, amount)?;
        Ok(())
    }
}
