//! Cuts between a payer and a payee, and what can be carried across them.

ghost use Rattle.std.specs.Prelude.{◌≡◌, ◌<◌, ◌-◌, ◌^◌, min, sum_by, true, IfOk};
ghost use Rattle.lgm_odds.specs.Cut.{capacities_of, is_near, IsCut, across, across_at, room_across};

use crate::liquidity::{CutEdge, Liquidity};
use indexmap::IndexSet;
use lgm_gossip::Point;
use std::alloc::{AllocError, Global};
use std::marker::Model;

/// A cut: the nodes of one side, either the payer's or the payee's. All others are on the other side.
#[derive(Drop)]
pub struct Cut {
    nodes: IndexSet<Point>,
    of_payee: bool,
}

impl Model for Cut {
    ghost use Rattle.lgm_odds.specs.Cut.{CutParts};

    ghost Value = { CutParts };

    ghost view = { λ c. record { nodes = c.nodes.keys; of_payee = c.of_payee } };
}

impl Cut {
    /// The cut of these nodes, which are the payee's side if `of_payee`, else the payer's.
    pub(crate) fn of(nodes: IndexSet<Point>, of_payee: bool) -> Cut
        ensures { result ≡ record { nodes = nodes.keys; of_payee = of_payee } }
    {
        Cut { nodes, of_payee }
    }

    /// Its nodes: those of the payee's side, if it is of that one, else those of the payer's.
    pub fn nodes(&self) -> &[Point]
        ensures { result.now ≡ self.now.nodes }
    {
        self.nodes.as_slice()
    }

    /// Whether its nodes are those of the payee's side.
    pub fn is_of_payee(&self) -> bool
        ensures { result ≡ self.now.of_payee }
    {
        self.of_payee
    }

    /// Whether a node is on the payer's side.
    fn is_near(&self, node: &Point) -> bool
        ensures { result ≡ is_near self.now node.now }
    {
        let there = self.nodes.contains(node);
        if self.of_payee { !there } else { there }
    }

    /// Whether the payer is on its own side, and the payee isn't.
    pub(crate) fn separates(&self, payer: &Point, payee: &Point) -> bool
        ensures { result ≡ true → IsCut payer.now payee.now self.now }
    {
        self.is_near(payer) && !self.is_near(payee)
    }

    /// What an edge can carry across, in msat.
    fn across(&self, edge: &CutEdge) -> u64
        ensures { result ≡ across self.now edge.now }
    {
        if self.is_near(&edge.from) && !self.is_near(&edge.to) {
            edge.room
        } else {
            0
        }
    }

    /// What some edges can together, and 2^64 - 1 at most.
    fn all_across(&self, edges: &[CutEdge]) -> u64
        ensures { result ≡ min (2 ^ 64 - 1) (sum_by (across self.now) edges.now) }
    {
        let mut room = 0u64;
        for edge in edges {
            room = room.saturating_add(self.across(edge));
        }
        room
    }

    /// What the edges of a node can, and 2^64 - 1 at most.
    fn across_at(
        &self,
        alloc: Global,
        liquidity: &Liquidity<'_>,
        node: &Point,
    ) -> Result<u64, AllocError>
        ensures { IfOk result (λ room. room ≡ min (2 ^ 64 - 1) (across_at (capacities_of liquidity.now) self.now node.now)) }
    {
        let edges = liquidity.edges_at(alloc, self.of_payee, node)?;
        Ok(self.all_across(&edges))
    }

    /// What all edges can carry across together, in msat, and 2^64 - 1 at most.
    pub fn room(&self, alloc: Global, liquidity: &Liquidity<'_>) -> Result<u64, AllocError>
        ensures { IfOk result (λ room. room ≡ room_across (capacities_of liquidity.now) self.now) }
    {
        let mut room = 0u64;
        for node in self.nodes.as_slice() {
            room = room.saturating_add(self.across_at(alloc, liquidity, node)?);
        }
        Ok(room)
    }
}
