//! The forward search: it expands nodes from the payer on, mostly those with the least fees (or delays) first.

ghost use Rattle.std.specs.Prelude.{◌≡◌, ◌^◌, ◌<◌, ◌≤◌, length, IfOk};
ghost use Rattle.lgm_graph.specs.Graph.{edges, edges_leaving};
ghost use Rattle.lgm_route.specs.inner.Numbered.{asked};
ghost use Rattle.lgm_route.specs.inner.Searching.{number_at};
ghost use Rattle.lgm_route.specs.inner.Bounding.{AreLowBy, charged, IsLowered, IsLooked, IsRadius};
ghost use Rattle.lgm_route.specs.inner.ForwardState.{IsForwardState, IsSameForwardState, AreNear};

use crate::bounds::{Bounds, Measure};
use crate::entry::Entry;
use crate::penalties::Penalties;
use crate::reached_nodes::ReachedNodes;
use crate::request::NumberedRequest;
use lgm_gossip::Scid;
use lgm_graph::{Edge, RoutingGraph, fee};
use std::alloc::{AllocError, Global};
use std::collections::BinaryHeap;
use std::marker::Model;

/// The maximum average number of edges that a forward search relaxes per step.
const EDGES: usize = 40;

/// A search over the edges of a graph, from the payer on, which lowers the fees to nodes, or the delays: whatever it
/// measures is called fees here.
///
/// A node is closed once the edges out of it were relaxed, and opened again when the fees to it fall.
#[derive(Drop)]
pub(crate) struct ForwardSearch<'a, V: RoutingGraph, P: Penalties> {
    view: &'a V,
    request: &'a NumberedRequest<P>,
    measure: Measure,
    reached: ReachedNodes,
    /// The nodes to expand next. No contract depends on their order.
    waiting: BinaryHeap<Entry>,
}

impl<'a, V: RoutingGraph, P: Penalties> Model for ForwardSearch<'a, V, P> {
    ghost use Rattle.lgm_route.specs.inner.ForwardState.{ForwardState, forward_state, IsForwardState};
    ghost use Rattle.lgm_route.specs.inner.Numbered.{asked};

    ghost Value = { ForwardState };

    ghost view = { λ p. forward_state (V.graph p.view.now) (asked (P.terms p.request.now.penalties) p.request.now) p.measure p.reached };

    ghost invariant = { λ p. IsForwardState
        (forward_state (V.graph p.view.now) (asked (P.terms p.request.now.penalties) p.request.now) p.measure p.reached) };
}

/// What an edge adds: its fee for the request's amount or its delay, or 0 if the edge is the payer's own. The penalty is left
/// out if the fee alone is as much as what lowers nothing.
#[inline(always)]
fn charge<P: Penalties>(
    measure: Measure,
    request: &NumberedRequest<P>,
    edge: &Edge,
    most: u128,
) -> u128
    ensures first { edge.now.from ≡ request.now.payer → result ≡ 0 }
    ensures most { result ≤ charged measure (asked (P.terms request.now.penalties) request.now) edge.now }
    ensures low { result < 2 ^ 98 }
{
    if edge.from == request.payer {
        return 0;
    }
    match measure {
        Measure::Fees => {
            let fee = fee(request.amount, edge.base, edge.millionths);
            if most <= fee {
                return fee;
            }
            fee + request.penalties.add(0, edge, request.amount) as u128
        }
        Measure::Delays => request.counted(edge) as u128,
    }
}

impl<'a, V: RoutingGraph, P: Penalties> ForwardSearch<'a, V, P> {
    /// A search that has only reached the payer.
    pub(crate) fn new(
        alloc: Global,
        view: &'a V,
        request: &'a NumberedRequest<P>,
        measure: Measure,
    ) -> Result<ForwardSearch<'a, V, P>, AllocError>
        ensures view { IfOk result (λ pass. pass.graph ≡ V.graph view.entry.now) }
        ensures request { IfOk result (λ pass. pass.request ≡ asked (P.terms request.entry.now.penalties) request.entry.now) }
        ensures measure { IfOk result (λ pass. pass.measure ≡ measure) }
    {
        let mut reached = ReachedNodes::new(alloc, view.nodes())?;
        reached.lower(request.payer, 0, Scid::from_u64(0))?;
        let mut search = ForwardSearch {
            view,
            request,
            measure,
            reached,
            waiting: BinaryHeap::new(alloc),
        };
        search.queue(request.payer, 0)?;
        Ok(search)
    }

    /// The fees to a node, in msat.
    #[inline(always)]
    fn distance_to(&self, node: u32) -> u64
        ensures fees { result ≡ number_at self.now.dist node }
        ensures pass { IsForwardState self.now }
    {
        self.reached.distance_to(node)
    }

    /// The edges out of a node.
    fn edges_leaving(&self, node: u32) -> &'a [Edge]
        ensures { result.now ≡ edges_leaving self.now.graph node }
    {
        self.view.edges_leaving(node)
    }

    /// Lowers the fees to a node, which is reached over this channel, if they are higher, and returns them then. The node is
    /// open then.
    #[inline(always)]
    fn lower(&mut self, node: u32, amount: u128, over: Scid) -> Result<Option<u64>, AllocError>
        ensures same { IsSameForwardState self.old self.new }
        ensures lowered { IfOk result (λ _. IsLowered self.old.dist self.old.closed node amount
            self.new.dist self.new.closed) }
    {
        self.reached.lower(node, amount, over)
    }

    /// Queues a node that was reached for these fees.
    #[inline(always)]
    fn queue(&mut self, node: u32, fees: u64) -> Result<(), AllocError>
        ensures { self.new ≡ self.old }
    {
        self.waiting.push(Entry::new(fees, 0, node as usize))?;
        Ok(())
    }

    /// Relaxes an edge out of a node to which these fees lead: lowers the fees to its end.
    fn look(&mut self, edge: &Edge, start: u64) -> Result<(), AllocError>
        ensures same { IsSameForwardState self.old self.new }
        ensures looked { IfOk result (λ _. IsLooked self.old.measure self.old.request start edge.now
            self.old.dist self.old.closed self.new.dist self.new.closed) }
    {
        let request = self.request;
        if request.amount < edge.min || edge.max < request.amount || request.is_beyond(edge) {
            return Ok(());
        }
        let most = (self.distance_to(edge.to) as u128).saturating_sub(start as u128);
        let amount = start as u128 + charge(self.measure, request, edge, most);
        if let Some(fees) = self.lower(edge.to, amount, edge.scid)? {
            self.queue(edge.to, fees)?;
        }
        Ok(())
    }

    /// Closes a node.
    fn close(&mut self, node: u32)
        requires { AreNear self.old node }
        ensures { IsSameForwardState self.old self.new }
    {
        self.reached.close(node);
    }

    /// Relaxes the edges out of a node, and closes it.
    fn spread(&mut self, node: u32) -> Result<(), AllocError>
        ensures { IsSameForwardState self.old self.new }
    {
        let start = self.distance_to(node);
        for edge in self.edges_leaving(node) {
            self.look(edge, start)?;
        }
        self.close(node);
        Ok(())
    }

    /// The node to expand next, if there is one.
    fn next(&mut self) -> Option<u32>
        ensures { self.new ≡ self.old }
    {
        let next = self.waiting.pop()?;
        Some((next.place() % 0x1_0000_0000) as u32)
    }

    /// Expands up to `steps` nodes, fewer if nodes have many edges.
    pub(crate) fn expand(&mut self, steps: usize) -> Result<(), AllocError>
        ensures { IsSameForwardState self.old self.new }
    {
        let mut looked: usize = 0;
        for _step in 0..steps {
            let Some(node) = self.next() else {
                break;
            };
            if steps.saturating_mul(EDGES) <= looked || node == self.request.payee {
                break;
            }
            looked = looked.saturating_add(self.edges_leaving(node).len());
            if self.reached.is_open(node) {
                self.spread(node)?;
            }
        }
        Ok(())
    }

    /// The fees, which up to the least of an open node are lower bounds.
    pub(crate) fn into_bounds(self) -> Bounds
        ensures long { length result ≡ length self.entry.graph.points }
        ensures low { AreLowBy self.entry.measure (edges self.entry.graph) self.entry.request result }
    {
        let radius = self.radius();
        let ForwardSearch { reached, .. } = self;
        Bounds::new(reached, radius)
    }

    /// The least fees to an open node.
    fn radius(&self) -> u64
        ensures radius { IsRadius self.now.dist self.now.closed result }
        ensures pass { IsForwardState self.now }
    {
        self.reached.radius()
    }
}
