//! Requests between numbered nodes.

ghost use Rattle.std.specs.Prelude.{◌≡◌, ◌≤◌, None, IfSome};
ghost use Rattle.lgm_route.specs.Answers.{refusal};
ghost use Rattle.lgm_route.specs.inner.Best.{IsNumberingOf};

use crate::limits::RouteLimits;
use crate::penalties::Penalties;
use crate::request::{LawfulRequest, NumberedRequest};
use lgm_graph::RoutingGraph;

/// The request between numbered nodes. None if a node has no number, or a route may have no channel: then there is no
/// route, whatever the edges between other nodes are.
pub(crate) fn numbered<V: RoutingGraph, P: Penalties>(
    view: &V,
    request: &LawfulRequest,
    limits: &RouteLimits,
    penalties: P,
) -> Option<NumberedRequest<P>>
    ensures numbered { IsNumberingOf (V.graph view.now) request.now limits.now penalties result }
    ensures hops { IfSome result (λ numbered. (1 ≤ numbered.most_hops) × (numbered.most_hops ≤ 20)) }
    ensures allowed { refusal request.now ≡ None }
{
    // The contract of `nodes` says that the nodes of edges are numbered.
    let _nodes = view.nodes();
    let request = request.get();
    if limits.most_hops == 0 {
        return None;
    }
    let Some(payer) = view.node_number(&request.payer) else {
        return None;
    };
    let Some(payee) = view.node_number(&request.payee) else {
        return None;
    };
    Some(NumberedRequest {
        payer,
        payee,
        amount: request.amount,
        limit: limits.most_delay,
        most_hops: u16::from(limits.most_hops.min(20)),
        penalties,
    })
}
