//! Lower bounds on the fees and the delays from the payer to each node.

ghost use Rattle.std.specs.Prelude.{◌≡◌, [], length, IfOk};
ghost use Rattle.lgm_route.specs.inner.Searching.{number_at};
ghost use Rattle.lgm_route.specs.inner.Bounding.{bounds_in, AreLow, AreLowBy};
ghost use Rattle.lgm_route.specs.inner.Reaching.{fees_in};
ghost use Rattle.lgm_graph.specs.Graph.{edges};
ghost use Rattle.lgm_route.specs.inner.Numbered.{asked};

use crate::forward_search::ForwardSearch;
use crate::penalties::Penalties;
use crate::reached_nodes::ReachedNodes;
use crate::request::NumberedRequest;
use lgm_gossip::Scid;
use lgm_graph::RoutingGraph;
use std::alloc::{AllocError, Global};
use std::marker::Model;

/// What a forward search adds up.
#[derive(Clone, Copy)]
pub(crate) enum Measure {
    /// The fees and the penalties for the request's amount, in msat.
    Fees,
    /// The delays that count, in blocks.
    Delays,
}

/// Lower bounds on the fees or the delays from the payer to each node. Contracts see the bounds by number of the node.
///
/// They are computed by a forward search from the payer. It also finds over which channel each node is reached for
/// these, which no contract depends on.
#[derive(Drop)]
pub(crate) struct Bounds {
    /// What leads to each node that the forward search reached.
    reached: ReachedNodes,
    /// The radius: the least of what leads to a node that was reached and not expanded. No bound exceeds it.
    radius: u64,
}

impl Model for Bounds {
    ghost use Rattle.std.specs.Prelude.{ℕ, List};
    ghost use Rattle.lgm_route.specs.inner.Bounding.{bounds_in};
    ghost use Rattle.lgm_route.specs.inner.Reaching.{fees_in};

    ghost Value = { List ℕ };

    ghost view = { λ b. bounds_in b.radius (fees_in b.reached) };
}

/// Lower bounds from the payer to each node: on the fees, and on the delays that count.
#[derive(Drop)]
pub(crate) struct LowerBounds {
    pub fees: Bounds,
    /// None is known if the request has no limit, since no delay counts then.
    pub delays: Bounds,
}

impl Model for LowerBounds {
    ghost use Rattle.lgm_route.specs.inner.Searching.{Low};

    ghost Value = { Low };

    ghost view = { λ b. record { fees = b.fees; delays = b.delays } };
}

impl Bounds {
    pub(crate) fn new(reached: ReachedNodes, radius: u64) -> Bounds
        ensures { result ≡ bounds_in radius (fees_in reached) }
    {
        Bounds { reached, radius }
    }

    /// No bounds.
    fn none(alloc: Global) -> Bounds
        ensures { result ≡ [] }
    {
        Bounds::new(ReachedNodes::none(alloc), 0)
    }

    /// The number of nodes.
    pub(crate) fn len(&self) -> usize
        ensures { result ≡ length self.now }
    {
        self.reached.len()
    }

    /// The bound of a node; 0 for an unknown number.
    #[inline(always)]
    pub(crate) fn at(&self, node: u32) -> u64
        ensures { result ≡ number_at self.now node }
    {
        self.reached.distance_to(node).min(self.radius)
    }

    /// The channel over which the forward search reached a node, if the node is within the radius.
    pub(crate) fn channel_to(&self, node: u32) -> Option<Scid> {
        self.reached.channel_to(node, self.radius)
    }
}

/// The number of nodes that a forward search expands: the square root of their number, from 64 to 1,024. No contract
/// depends on it.
fn steps_for(nodes: usize) -> usize {
    for steps in 64..1_024 {
        if nodes <= steps * steps {
            return steps;
        }
    }
    1_024
}

/// Lower bounds on a measure from the payer to each node of a graph.
fn bounds_by<V: RoutingGraph, P: Penalties>(
    alloc: Global,
    view: &V,
    request: &NumberedRequest<P>,
    measure: Measure,
) -> Result<Bounds, AllocError>
    ensures long { IfOk result (λ low. length low ≡ length (V.graph view.now).points) }
    ensures low { IfOk result (λ low. AreLowBy measure (edges (V.graph view.now)) (asked (P.terms request.now.penalties) request.now) low) }
{
    let mut pass = ForwardSearch::new(alloc, view, request, measure)?;
    pass.expand(steps_for(view.nodes()))?;
    Ok(pass.into_bounds())
}

/// Lower bounds on the fees from the payer to each node of a graph, and on the delays if the request has a limit.
pub(crate) fn lower_bounds<V: RoutingGraph, P: Penalties>(
    alloc: Global,
    view: &V,
    request: &NumberedRequest<P>,
) -> Result<LowerBounds, AllocError>
    ensures long { IfOk result (λ low. length low.fees ≡ length (V.graph view.now).points) }
    ensures low { IfOk result (λ low. AreLow (edges (V.graph view.now)) (asked (P.terms request.now.penalties) request.now) low) }
{
    let fees = bounds_by(alloc, view, request, Measure::Fees)?;
    let delays = match request.limit {
        None => Bounds::none(alloc),
        Some(_limit) => bounds_by(alloc, view, request, Measure::Delays)?,
    };
    Ok(LowerBounds { fees, delays })
}
