//! The hops of a walk.

ghost use Rattle.std.specs.Prelude.{◌≡◌, ◌≤◌, ◌<◌, length, IfOk};
ghost use Rattle.lgm_route.specs.inner.Best.{edges_in, point_at, hop_over, AreNumbered};
ghost use Rattle.lgm_route.specs.Routes.{hops_of};
ghost use Rattle.lgm_route.specs.inner.Searching.{AreCarried, IsSpelled, Spells};

use crate::label::{Label, first_of};
use crate::request::Request;
use lgm_gossip::Point;
use lgm_graph::{Edge, Hop, RoutingGraph, fee};
use std::alloc::{AllocError, Global};

/// The point of a node's number.
fn point_at<V: RoutingGraph>(view: &V, number: u32) -> Point
    requires { number < length (V.graph view.now).points }
    ensures { result ≡ point_at (V.graph view.now) number }
{
    match view.point(number) {
        Some(point) => *point,
        None => unreachable!(),
    }
}

/// The hop over one edge.
fn hop_over<V: RoutingGraph>(view: &V, edge: &Edge, amount: u64, expiry: u32) -> Hop
    requires from { edge.now.from < length (V.graph view.now).points }
    requires to { edge.now.to < length (V.graph view.now).points }
    ensures { result ≡ hop_over (V.graph view.now) edge.now amount expiry }
{
    Hop {
        scid: edge.scid,
        from: point_at(view, edge.from),
        to: point_at(view, edge.to),
        amount,
        expiry,
    }
}

/// The hops of a walk, with the amount and the expiry on each edge.
pub(crate) fn hops<V: RoutingGraph>(
    alloc: Global,
    view: &V,
    request: &Request,
    walk: &[Edge],
) -> Result<Vec<Hop>, AllocError>
    requires few { length walk.now ≤ 20 }
    requires expiry { request.now.expiry ≤ 498000000 }
    requires carried { AreCarried request.now.amount walk.now }
    requires ends { AreNumbered (V.graph view.now) walk.now }
    ensures { IfOk result (λ hops. hops.items ≡ hops_of request.now (edges_in (V.graph view.now) walk.now)) }
{
    let mut hops = Vec::new(alloc);
    let mut owed = request.amount as u128;
    let mut due = request.expiry;
    for i in 0..walk.len() {
        let edge = &walk[walk.len() - 1 - i];
        let delta = edge.delta;
        let amount = owed as u64;
        hops.push(hop_over(view, edge, amount, due))?;
        owed += fee(amount, edge.base, edge.millionths);
        due += delta as u32;
    }
    hops.reverse();
    Ok(hops)
}

/// The walk that a label represents.
pub(crate) fn rebuild<V: RoutingGraph>(
    alloc: Global,
    view: &V,
    labels: &[Label],
    found: &Label,
) -> Result<Vec<Edge>, AllocError>
    requires { IsSpelled (V.graph view.now) labels.now found.now }
    ensures { IfOk result
        (λ walk. Spells (V.graph view.now) labels.now found.now walk.items × (length walk.items ≡ found.now.hops)) }
{
    let mut walk = Vec::new(alloc);
    let mut here = *found;
    for step in 0..found.hops {
        walk.push(*first_of(view, labels, &here))?;
        here = labels[here.parent];
    }
    Ok(walk)
}
