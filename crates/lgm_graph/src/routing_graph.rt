//! What a search needs of a graph.

ghost use Rattle.std.specs.Prelude.{◌≡◌, ◌^◌, ◌<◌, length, slice_get};
ghost use Rattle.std.specs.List.{position};
ghost use Rattle.std.specs.Option.{option_copied};
ghost use Rattle.lgm_store.specs.Rows.{is_point};
ghost use Rattle.lgm_graph.specs.Graph.{Graph, AreListed, edges_into, edges_leaving};

use crate::edge::Edge;
use lgm_gossip::Point;

/// A graph that routes are found in: the view of a map, or one that differs from it in what a payer knows.
///
/// A search borrows it; several workers share it, if it is `Sync`.
pub trait RoutingGraph: Drop {
    /// The numbered points, and the edges between them.
    ghost graph: { Self → Graph };

    /// The number of numbered points: node indices are below it. Different points have different indices, and each edge
    /// is listed at both of its nodes.
    fn nodes(&self) -> usize
        ensures count { result ≡ length (graph self.now).points }
        ensures few { result < 2 ^ 32 }
        ensures listed { AreListed (graph self.now) };

    /// The node index of a point, if it has one.
    fn node_number(&self, point: &Point) -> Option<u32>
        ensures { result ≡ position (is_point point.now) (graph self.now).points };

    /// The point with a node index, if there is one.
    fn point(&self, number: u32) -> Option<&Point>
        ensures { option_copied result ≡ slice_get (graph self.now).points number };

    /// The edges into the node with an index, by id and direction: none if it takes no payments or no node has the
    /// index.
    fn edges_into(&self, number: u32) -> &[Edge]
        ensures { result.now ≡ edges_into (graph self.now) number };

    /// The edges out of the node with an index, by id and direction, including those to nodes that take no payments.
    fn edges_leaving(&self, number: u32) -> &[Edge]
        ensures { result.now ≡ edges_leaving (graph self.now) number };
}
