//! The best walk between numbered nodes.

ghost use Rattle.std.specs.Prelude.{◌≡◌, ◌≤◌, ◌^◌, true, IfOk};
ghost use Rattle.lgm_graph.specs.Graph.{edges, AreListed};
ghost use Rattle.lgm_route.specs.inner.Best.{IsWalkFound, IsCutShort, IsUsedUp};
ghost use Rattle.lgm_route.specs.inner.Numbered.{asked};
ghost use Rattle.lgm_route.specs.inner.SearchState.{IsBegun, IsFinished, IsSearch};
ghost use Rattle.lgm_route.specs.inner.Searching.{IsUpperBound};

use crate::bounds::lower_bounds;
use crate::fault::RouteFault;
use crate::found::{SearchFault, WalkFound};
use crate::halt::Halt;
use crate::label_search::LabelSearch;
use crate::limits::SearchBudget;
use crate::penalties::Penalties;
use crate::request::NumberedRequest;
use lgm_graph::{Edge, RoutingGraph};
use lgm_par::{Gate, Pool};
use std::alloc::{AllocError, Global};
use std::thread::Threads;

/// A new search, within a budget.
fn begin<'a, V: RoutingGraph, P: Penalties>(
    alloc: Global,
    view: &'a V,
    request: &NumberedRequest<P>,
    budget: SearchBudget,
) -> Result<LabelSearch<'a, V, P>, AllocError>
    requires { (1 ≤ request.now.most_hops) × (request.now.most_hops ≤ 20) }
    ensures { IfOk result (λ search.
        IsBegun (V.graph view.entry.now) (asked (P.terms request.now.penalties) request.now) budget search) }
{
    let _nodes = view.nodes();
    let upper_bound = most_sent(view, request);
    let low = lower_bounds(alloc, view, request)?;
    let search = LabelSearch::new(alloc, view, *request, low, upper_bound, budget)?;
    Ok(search)
}

/// The best walk between numbered nodes within a budget, or, where that runs out, the best one so far.
pub(crate) fn walk_within<V: RoutingGraph, P: Penalties>(
    alloc: Global,
    view: &V,
    request: &NumberedRequest<P>,
    budget: &SearchBudget,
) -> Result<WalkFound, SearchFault>
    requires { (1 ≤ request.now.most_hops) × (request.now.most_hops ≤ 20) }
    ensures found { IsWalkFound (edges (V.graph view.now)) (asked (P.terms request.now.penalties) request.now) result }
    ensures used_up { IsCutShort result
        → IsUsedUp (edges (V.graph view.now)) (asked (P.terms request.now.penalties) request.now) budget.now }
{
    let mut search = begin(alloc, view, request, *budget)?;
    match search.settle_best_first(alloc) {
        Ok(()) => best_found(alloc, &search, true),
        Err(halt) => match halt {
            Halt::NoMemory => Err(SearchFault::Fault(RouteFault::NoMemory)),
            _ => best_found(alloc, &search, false),
        },
    }
}

/// The best walk of a search, which is finished, or stopped: then it is the best one so far.
fn best_found<V: RoutingGraph, P: Penalties>(
    alloc: Global,
    search: &LabelSearch<'_, V, P>,
    is_finished: bool,
) -> Result<WalkFound, SearchFault>
    requires { is_finished ≡ true → IsFinished search.now }
    ensures found { IsWalkFound (edges search.now.ground.graph) search.now.ground.request result }
    ensures sure { is_finished ≡ true → IsCutShort result → ⊥ }
    ensures search { IsSearch search.now }
{
    // The contract of `len` says that no two labels represent one rest.
    let _len = search.len();
    match search.best_walk(alloc)? {
        Some(walk) => Ok(WalkFound {
            walk,
            is_best: is_finished,
        }),
        None if is_finished => Err(SearchFault::Fault(RouteFault::NoRoute)),
        None => Err(SearchFault::Undecided),
    }
}

/// The best walk between numbered nodes, found by several workers, whatever it takes.
pub(crate) fn walk_pooled<Rt: Threads + Sync, G: Gate, V: RoutingGraph + Sync, P: Penalties + Sync>(
    pool: &Pool<'_, Rt, G>,
    view: &V,
    request: &NumberedRequest<P>,
) -> Result<WalkFound, SearchFault>
    requires { (1 ≤ request.now.most_hops) × (request.now.most_hops ≤ 20) }
    ensures found { IsWalkFound (edges (V.graph view.now)) (asked (P.terms request.now.penalties) request.now) result }
    ensures sure { IsCutShort result → ⊥ }
{
    let mut search = begin(pool.alloc, view, request, SearchBudget::any())?;
    match search.settle_chunked(pool) {
        Ok(()) => best_found(pool.alloc, &search, true),
        Err(_halt) => Err(SearchFault::Fault(RouteFault::NoMemory)),
    }
}

/// The greatest penalties of the edges of a walk, in msat.
const MAX_PENALTIES: u128 = 20 << 40;

/// An amount in msat above what any walk costs: its first edge carries at most the greatest maximum of the edges out of
/// the payer.
fn most_sent<V: RoutingGraph, P: Penalties>(view: &V, request: &NumberedRequest<P>) -> u128
    requires hops { request.now.most_hops ≤ 20 }
    requires listed { AreListed (V.graph view.now) }
    ensures low { result ≤ 2 ^ 65 }
    ensures upper_bound { IsUpperBound (edges (V.graph view.now)) (asked (P.terms request.now.penalties) request.now) result }
{
    let mut most = 0;
    for edge in view.edges_leaving(request.payer) {
        let max = edge.max as u128 + 1;
        if most < max {
            most = max;
        }
    }
    most + MAX_PENALTIES
}
