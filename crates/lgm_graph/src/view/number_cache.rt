//! A cache of node numbers, so that most points needn't be looked up by hash.

ghost use Rattle.std.specs.Prelude.{◌≡◌, IfSome};
ghost use Rattle.lgm_graph.specs.Graph.{IsNumbered, number_of};

use crate::nodes::Nodes;
use lgm_gossip::Point;
use lgm_store::{LookupCache, NodeKey};
use std::alloc::Global;

/// The numbers of nodes by their points, in a lookup cache. The point with a number is compared before it is used, so a
/// wrong entry costs a lookup by hash and nothing else. No contract says when there is a hit.
#[derive(Drop)]
pub(super) struct NumberCache {
    numbers: LookupCache,
}

impl NumberCache {
    /// An empty cache. Allocates nothing.
    pub(super) fn new(alloc: Global) -> NumberCache {
        NumberCache {
            numbers: LookupCache::new(alloc),
        }
    }

    /// The number of a point, if the entry is right.
    pub(super) fn number(&self, nodes: &Nodes, point: &Point) -> Option<usize>
        ensures number { IfSome result (λ n. n ≡ number_of nodes.now.points.keys point.now) }
        ensures numbered { IfSome result (λ n. IsNumbered nodes.now.points.keys point.now) }
    {
        let number = self.numbers.guess(NodeKey::of(point).front())?;
        if nodes.has_number(point, number) {
            Some(number)
        } else {
            None
        }
    }

    /// Stores the number of a point, one of this many.
    pub(super) fn insert(&mut self, point: &Point, number: usize, nodes: usize) {
        self.numbers.reserve(nodes);
        self.numbers.insert(NodeKey::of(point).front(), number);
    }
}
