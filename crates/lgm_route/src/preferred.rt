//! The best route by what its payer prefers, within limits.

ghost use Rattle.std.specs.Prelude.{◌≡◌, ◌⊎◌, ◌+◌, ◌*◌, ◌^◌, ◌<◌, ℕ, true, false, Some, Err, length};
ghost use Rattle.lgm_graph.specs.Edges.{PointEdge};
ghost use Rattle.lgm_graph.specs.Graph.{IsGraphOf, point_edges};
ghost use Rattle.lgm_graph.specs.Overlay.{overlaid_edges};
ghost use Rattle.lgm_route.specs.Answers.{refusal};
ghost use Rattle.lgm_route.specs.Preferred.{IsRouteBy, IsPreferredAnswer, IsCutShort, IsUsedUp, IsBeyond};
ghost use Rattle.lgm_route.specs.Preferred.{PrefersNothing, no_limits, penalty_for, answer_for};
ghost use Rattle.lgm_route.specs.inner.Best.{AreAlike, IsFree, hops_within, is_settled, any_budget};
ghost use Rattle.lgm_route.specs.declared.fault.RouteFault.{RouteFault as Refusal};
ghost use Rattle.lgm_route.specs.declared.found.SearchFault.TheVariants.{Fault};

use crate::best_route::found_within;
use crate::found::{Found, SearchFault};
use crate::limits::{RouteLimits, SearchBudget};
use crate::penalties::{NoPenalties, Penalties};
use crate::preferences::Weights;
use crate::request::{LawfulRequest, Request};
use crate::search::Search;
use lgm_graph::{Overlay, OverlayView, Route, RoutingGraph, View, overlays_are_lawful};
use lgm_store::Map;
use std::alloc::Global;

/// Whether a route is within limits.
fn is_within(route: &Route, request: &LawfulRequest, limits: &RouteLimits) -> bool
    ensures { result ≡ hops_within limits.now request.now.expiry route.now }
{
    if usize::from(limits.most_hops) < route.as_slice().len() {
        return false;
    }
    match limits.most_delay {
        None => true,
        Some(most) => u64::from(route.expiry())
            <= u64::from(request.get().expiry) + u64::from(most),
    }
}

/// Whether what was found without limits is the answer within these.
fn is_settled(
    found: &Result<Found, SearchFault>,
    request: &LawfulRequest,
    limits: &RouteLimits,
) -> bool
    ensures settled { result ≡ true
        → (limits.now ≡ no_limits) ⊎ (is_settled limits.now request.now.expiry found.now ≡ true) }
    ensures open { result ≡ false → is_settled limits.now request.now.expiry found.now ≡ false }
{
    if limits.are_none() {
        return true;
    }
    match found {
        Ok(found) => found.is_best && is_within(&found.route, request, limits),
        Err(SearchFault::Undecided) => false,
        Err(SearchFault::Fault(_fault)) => true,
    }
}

/// The best route within limits. Mostly the best one of all is within them, and that is found sooner: `whole` is what may be
/// spent on it.
fn found_by<V: RoutingGraph, P: Penalties>(
    alloc: Global,
    graph: &V,
    request: &LawfulRequest,
    limits: &RouteLimits,
    penalties: P,
    whole: &SearchBudget,
    budget: &SearchBudget,
) -> Result<Found, SearchFault>
    requires { (whole.now ≡ any_budget) ⊎ (whole.now ≡ budget.now) }
    ensures answer { (penalty : PointEdge → ℕ → ℕ) → AreAlike (V.graph graph.now) (P.terms penalties) penalty
        → IsRouteBy (IsPreferredAnswer penalty limits.now (point_edges (V.graph graph.now)) request.now) limits.now
        (point_edges (V.graph graph.now)) request.now result }
    ensures used_up { IsCutShort result → IsUsedUp limits.now (point_edges (V.graph graph.now)) request.now budget.now }
    ensures beyond { (penalty : PointEdge → ℕ → ℕ) → AreAlike (V.graph graph.now) (P.terms penalties) penalty → IsFree penalty
        → whole.now ≡ any_budget → IsCutShort result → IsBeyond limits.now (point_edges (V.graph graph.now)) request.now }
{
    let first = found_within(
        alloc,
        graph,
        request,
        &RouteLimits::none(),
        penalties,
        whole,
    );
    if is_settled(&first, request, limits) {
        return first;
    }
    found_within(alloc, graph, request, limits, penalties, budget)
}

/// The best route as [`find`] finds it.
pub(crate) fn found<V: RoutingGraph>(
    alloc: Global,
    graph: &V,
    search: &Search<'_>,
    request: &LawfulRequest,
) -> Result<Found, SearchFault>
    ensures answer { IsRouteBy (IsPreferredAnswer (penalty_for search.now) search.now.limits (point_edges (V.graph graph.now)) request.now)
        search.now.limits (point_edges (V.graph graph.now)) request.now result }
    ensures used_up { IsCutShort result
        → IsUsedUp search.now.limits (point_edges (V.graph graph.now)) request.now search.now.budget }
    ensures beyond { PrefersNothing search.now → IsCutShort result
        → IsBeyond search.now.limits (point_edges (V.graph graph.now)) request.now }
{
    let limits = &search.limits;
    let budget = &search.budget;
    if search.is_plain() {
        let whole = SearchBudget::any();
        return found_by(alloc, graph, request, limits, NoPenalties, &whole, budget);
    }
    let weights = Weights {
        graph,
        preferences: search.preferences,
        estimates: search.estimates,
    };
    found_by(alloc, graph, request, limits, weights, budget, budget)
}

/// The best route of a payment over the edges of a graph by what its payer prefers and knows of edges: of all usable walks
/// within the limits the one that costs least, which is what it sends and the penalties of its edges, each for what it
/// carries. Ties are broken by fewer channels, then by the lexicographically smaller list of ids from the payer on.
///
/// Where the budget runs out it is the best of the routes that were found so far, or `Undecided` if none was. Up to two
/// searches are made, each within the budget: the first one without limits. If edges have no penalties, by preferences or
/// estimates, that one has no budget, so the budget only runs out if the route that sends least of all isn't within the
/// limits.
///
/// The refusals are those of [`least`](crate::least). `NoRoute` comes only if no usable walk is within the limits.
/// `NoMemory` and `Undecided` say nothing about the payment.
pub fn find<V: RoutingGraph>(
    alloc: Global,
    graph: &V,
    search: &Search<'_>,
    request: &Request,
) -> Result<Found, SearchFault>
    ensures refused { (fault : Refusal) → refusal request.now ≡ Some fault → result ≡ Err (Fault fault) }
    ensures answer { IsRouteBy (IsPreferredAnswer (penalty_for search.now) search.now.limits (point_edges (V.graph graph.now)) request.now)
        search.now.limits (point_edges (V.graph graph.now)) request.now result }
    ensures used_up { IsCutShort result
        → IsUsedUp search.now.limits (point_edges (V.graph graph.now)) request.now search.now.budget }
    ensures beyond { PrefersNothing search.now → IsCutShort result
        → IsBeyond search.now.limits (point_edges (V.graph graph.now)) request.now }
{
    found(alloc, graph, search, &request.lawful()?)
}

/// The same over a map with its view and an overlay: the only answer, by exhaustive search. An overlay of nothing leaves
/// the map's edges. The overlay's extra edges have a place in the view if their nodes do in its numbers of 32 bits.
pub fn find_over(
    alloc: Global,
    map: &Map,
    view: &View,
    overlay: &Overlay,
    search: &Search<'_>,
    request: &Request,
) -> Result<Found, SearchFault>
    requires beside { IsGraphOf map.now view.now }
    requires few { length view.now.points + 2 * length overlay.now.extra < 2 ^ 32 }
    ensures refused { (fault : Refusal) → refusal request.now ≡ Some fault → result ≡ Err (Fault fault) }
    ensures answer { let edges = overlaid_edges view.now.known map.now overlay.now in
        IsRouteBy (λ answer. answer ≡ answer_for search.now edges request.now) search.now.limits edges request.now result }
    ensures used_up { IsCutShort result
        → IsUsedUp search.now.limits (overlaid_edges view.now.known map.now overlay.now) request.now search.now.budget }
    ensures beyond { PrefersNothing search.now → IsCutShort result
        → IsBeyond search.now.limits (overlaid_edges view.now.known map.now overlay.now) request.now }
{
    map.rows_are_lawful();
    overlays_are_lawful();
    let request = request.lawful()?;
    if overlay.is_empty() {
        view.shows_the_edges();
        return found(alloc, view, search, &request);
    }
    let over = OverlayView::of(alloc, view, overlay)?;
    found(alloc, &over, search, &request)
}
