//! The best route within limits, by one search.

ghost use Rattle.std.specs.Prelude.{◌≡◌, ℕ, ◌<◌, ◌≤◌, ◌^◌, Some, IfOk};
ghost use Rattle.lgm_graph.specs.Edges.{PointEdge};
ghost use Rattle.lgm_graph.specs.Graph.{edges, point_edges};
ghost use Rattle.lgm_route.specs.Preferred.{IsRouteBy, IsPreferredAnswer, IsCutShort, IsUsedUp, no_limits};
ghost use Rattle.lgm_route.specs.Routes.{hops_of};
ghost use Rattle.lgm_route.specs.declared.limits.SearchBudget.{SearchBudget as Budget};
ghost use Rattle.lgm_route.specs.inner.Best as numbers;
ghost use Rattle.lgm_route.specs.inner.Best.{AreAlike, IsNumberingOf, IsWalkFound, edges_in, free};
ghost use Rattle.lgm_route.specs.inner.Numbered.{asked, sent, IsUsable};

use crate::fault::RouteFault;
use crate::found::{Found, SearchFault, WalkFound};
use crate::hops::hops;
use crate::limits::{RouteLimits, SearchBudget};
use crate::numbering::numbered;
use crate::penalties::{NoPenalties, Penalties};
use crate::request::{LawfulRequest, NumberedRequest};
use crate::walks::{walk_pooled, walk_within};
use lgm_graph::{Route, RoutingGraph};
use lgm_par::{Gate, Pool};
use std::alloc::Global;
use std::thread::Threads;

/// The route over the walk that a search found, or why it found none.
fn with_route<V: RoutingGraph, P: Penalties>(
    alloc: Global,
    graph: &V,
    request: &LawfulRequest,
    limits: &RouteLimits,
    numbered: &NumberedRequest<P>,
    found: Result<WalkFound, SearchFault>,
) -> Result<Found, SearchFault>
    requires numbered { IsNumberingOf (V.graph graph.now) request.now limits.now numbered.now.penalties (Some numbered.now) }
    requires found { IsWalkFound (edges (V.graph graph.now)) (asked (P.terms numbered.now.penalties) numbered.now) found }
    ensures answer { (penalty : PointEdge → ℕ → ℕ) → AreAlike (V.graph graph.now) (P.terms numbered.now.penalties) penalty
        → IsRouteBy (IsPreferredAnswer penalty limits.now (point_edges (V.graph graph.now)) request.now) limits.now
        (point_edges (V.graph graph.now)) request.now result }
    ensures used_up { (budget : Budget) → (numbers.IsCutShort found → numbers.IsUsedUp (edges (V.graph graph.now))
        (asked (P.terms numbered.now.penalties) numbered.now) budget)
        → IsCutShort result → IsUsedUp limits.now (point_edges (V.graph graph.now)) request.now budget }
{
    // The contract of `nodes` says that the nodes of edges are numbered.
    let _nodes = graph.nodes();
    // That of `get` says that the payment isn't refused.
    let payment = request.get();
    let found = found?;
    let hops = hops(alloc, graph, payment, &found.walk)?;
    Ok(Found {
        route: Route::from_vec(hops),
        is_best: found.is_best,
    })
}

/// The best route within limits, by one search within a budget.
pub(crate) fn found_within<V: RoutingGraph, P: Penalties>(
    alloc: Global,
    graph: &V,
    request: &LawfulRequest,
    limits: &RouteLimits,
    penalties: P,
    budget: &SearchBudget,
) -> Result<Found, SearchFault>
    ensures answer { (penalty : PointEdge → ℕ → ℕ) → AreAlike (V.graph graph.now) (P.terms penalties) penalty
        → IsRouteBy (IsPreferredAnswer penalty limits.now (point_edges (V.graph graph.now)) request.now) limits.now
        (point_edges (V.graph graph.now)) request.now result }
    ensures used_up { IsCutShort result → IsUsedUp limits.now (point_edges (V.graph graph.now)) request.now budget.now }
{
    let Some(numbered) = numbered(graph, request, limits, penalties) else {
        return Err(SearchFault::Fault(RouteFault::NoRoute));
    };
    let found = walk_within(alloc, graph, &numbered, budget);
    with_route(alloc, graph, request, limits, &numbered, found)
}

/// The route that sends least of all, by one search, which a pool of workers shares.
pub(crate) fn found_pooled<Rt: Threads + Sync, G: Gate, V: RoutingGraph + Sync>(
    pool: &Pool<'_, Rt, G>,
    graph: &V,
    request: &LawfulRequest,
) -> Result<Found, SearchFault>
    ensures answer { IsRouteBy (IsPreferredAnswer free no_limits (point_edges (V.graph graph.now)) request.now) no_limits
        (point_edges (V.graph graph.now)) request.now result }
    ensures sure { IsCutShort result → ⊥ }
{
    let limits = RouteLimits::none();
    if pool.workers == 1 {
        return found_within(
            pool.alloc,
            graph,
            request,
            &limits,
            NoPenalties,
            &SearchBudget::any(),
        );
    }
    let Some(numbered) = numbered(graph, request, &limits, NoPenalties) else {
        return Err(SearchFault::Fault(RouteFault::NoRoute));
    };
    let found = walk_pooled(pool, graph, &numbered);
    with_route(pool.alloc, graph, request, &limits, &numbered, found)
}
