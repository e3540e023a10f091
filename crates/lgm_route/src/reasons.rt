//! The reason why a payment has no route within limits.

ghost use Rattle.std.specs.Prelude.{◌≡◌, ◌+◌, ◌*◌, ◌^◌, ◌<◌, length, true, false, IfOk, IfErr, MatchOption};
ghost use Rattle.lgm_graph.specs.Graph.{IsGraphOf, point_edges};
ghost use Rattle.lgm_graph.specs.Overlay.{overlaid_edges};
ghost use Rattle.lgm_route.specs.Reasons.{HasRoute, HasNone, IsExplained, IsReason, IsUnexplained, NoneBefore};
ghost use Rattle.lgm_route.specs.Reasons.{delay_alone, hops_alone};
ghost use Rattle.lgm_route.specs.declared.limits.RouteLimits.{RouteLimits as Limits};

use crate::fault::RouteFault;
use crate::found::SearchFault;
use crate::limits::{RouteLimits, SearchBudget};
use crate::no_route::NoRouteReason;
use crate::preferences::Preferences;
use crate::preferred::found;
use crate::request::{LawfulRequest, Request};
use crate::search::Search;
use crate::sought::{Sought, any_sought};
use lgm_graph::{Estimates, Overlay, OverlayView, RoutingGraph, View, overlays_are_lawful};
use lgm_store::Map;
use std::alloc::Global;

/// Whether a usable walk is within limits.
fn has_route<V: RoutingGraph>(
    alloc: Global,
    graph: &V,
    request: &LawfulRequest,
    limits: &RouteLimits,
    budget: &SearchBudget,
) -> Result<bool, SearchFault>
    ensures some { IfOk result (λ found. found ≡ true → HasRoute limits.now (point_edges (V.graph graph.now)) request.now) }
    ensures none { IfOk result (λ found. found ≡ false → HasNone limits.now (point_edges (V.graph graph.now)) request.now) }
    ensures unknown { IfErr result (λ fault. IsUnexplained (point_edges (V.graph graph.now)) request.now budget.now fault) }
{
    // The contract of `get` says that the payment isn't refused.
    let _request = request.get();
    let nothing = Estimates::new(alloc);
    let search = Search {
        preferences: Preferences::none(),
        estimates: &nothing,
        limits: *limits,
        budget: *budget,
    };
    match found(alloc, graph, &search, request) {
        Ok(_found) => Ok(true),
        Err(SearchFault::Undecided) => Err(SearchFault::Undecided),
        Err(SearchFault::Fault(RouteFault::NoRoute)) => Ok(false),
        Err(SearchFault::Fault(fault)) => Err(SearchFault::Fault(fault)),
    }
}

/// The reason at the ends of a payment, if there is one: the edges of the payer and those of the payee.
fn reason_at_ends<V: RoutingGraph>(graph: &V, request: &Request) -> Option<NoRouteReason>
    ensures { (limits : Limits) → MatchOption result
        (NoneBefore 45 limits (point_edges (V.graph graph.now)) request.now)
        (λ reason. IsReason reason limits (point_edges (V.graph graph.now)) request.now) }
{
    if !any_sought(graph, &Sought::from_payer(request)) {
        return Some(NoRouteReason::PayerHasNoChannel);
    }
    if !any_sought(graph, &Sought::to_payee(request)) {
        return Some(NoRouteReason::PayeeTakesNoPayment);
    }
    if !any_sought(graph, &Sought::amount_from_payer(request)) {
        return Some(NoRouteReason::PayerLacksAmount);
    }
    if !any_sought(graph, &Sought::amount_to_payee(request)) {
        return Some(NoRouteReason::PayeeLacksAmount);
    }
    None
}

/// The reason, if there is one: at the ends, or between them, where each search has the whole budget.
fn reason_over<V: RoutingGraph>(
    alloc: Global,
    graph: &V,
    search: &Search<'_>,
    request: &LawfulRequest,
) -> Result<Option<NoRouteReason>, SearchFault>
    ensures reason { IfOk result (λ found. IsExplained found search.now.limits (point_edges (V.graph graph.now)) request.now) }
    ensures unknown { IfErr result (λ fault. IsUnexplained (point_edges (V.graph graph.now)) request.now search.now.budget fault) }
{
    let (limits, budget) = (&search.limits, &search.budget);
    if let Some(reason) = reason_at_ends(graph, request.get()) {
        return Ok(Some(reason));
    }
    if !has_route(alloc, graph, request, &RouteLimits::none(), budget)? {
        return Ok(Some(NoRouteReason::Unconnected));
    }
    if !has_route(alloc, graph, request, &limits.delay_alone(), budget)? {
        return Ok(Some(NoRouteReason::BeyondDelay));
    }
    if !has_route(alloc, graph, request, &limits.hops_alone(), budget)? {
        return Ok(Some(NoRouteReason::BeyondHops));
    }
    if !has_route(alloc, graph, request, limits, budget)? {
        return Ok(Some(NoRouteReason::BeyondBoth));
    }
    Ok(None)
}

/// Why a payment has no route within limits over a map with its view and an overlay: the first reason that holds. None if it
/// has a route. What its payer prefers and has learnt of edges doesn't matter.
///
/// Looks at all edges, and searches up to four times, each time within the budget. Where it runs out before a route is found,
/// this is `Undecided`. A payment that is refused whatever the edges are is refused for its first reason.
pub fn no_route_reason(
    alloc: Global,
    map: &Map,
    view: &View,
    overlay: &Overlay,
    search: &Search<'_>,
    request: &Request,
) -> Result<Option<NoRouteReason>, SearchFault>
    requires beside { IsGraphOf map.now view.now }
    requires few { length view.now.points + 2 * length overlay.now.extra < 2 ^ 32 }
    ensures reason { IfOk result (λ found.
        IsExplained found search.now.limits (overlaid_edges view.now.known map.now overlay.now) request.now) }
    ensures unknown { IfErr result (λ fault.
        IsUnexplained (overlaid_edges view.now.known map.now overlay.now) request.now search.now.budget fault) }
{
    map.rows_are_lawful();
    overlays_are_lawful();
    let request = request.lawful()?;
    if overlay.is_empty() {
        view.shows_the_edges();
        return reason_over(alloc, view, search, &request);
    }
    let over = OverlayView::of(alloc, view, overlay)?;
    reason_over(alloc, &over, search, &request)
}
