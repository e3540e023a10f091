//! The route that sends least: over the edges of a view, and the unique answer over those of a map.

ghost use Rattle.std.specs.Prelude.{◌≡◌, ◌⊎◌, ◌≤◌, Some, Err};
ghost use Rattle.lgm_graph.specs.Edges.{edges_of};
ghost use Rattle.lgm_graph.specs.Graph.{IsGraphOf, point_edges};
ghost use Rattle.lgm_route.specs.Answers.{refusal, IsAnswer};
ghost use Rattle.lgm_route.specs.Choice.{answer_of};
ghost use Rattle.lgm_route.specs.declared.fault.RouteFault.{RouteFault};

use crate::best_route::{found_pooled, found_within};
use crate::fault::RouteFault;
use crate::found::certain;
use crate::limits::{RouteLimits, SearchBudget};
use crate::penalties::NoPenalties;
use crate::request::Request;
use lgm_graph::{Route, View};
use lgm_par::{Gate, Pool};
use lgm_store::Map;
use std::alloc::Global;
use std::thread::Threads;

/// The best route of a payment over the edges of a view: the one that sends least among all usable walks of 1 to 20
/// edges from the payer to the payee (BOLT 7, "HTLC Fees").
///
/// The last channel carries the request's amount, with its expiry; each other one carries the amount of the next plus
/// the next one's fee for it, and the expiry of the next plus the next one's `cltv_expiry_delta`. The payer's own
/// channel charges nothing. A channel's maximum applies to the amount that it carries, its minimum to the request's
/// amount. Ties are broken by fewer channels, then by the lexicographically smaller list of ids from the payer on.
///
/// Refusals come in the order of the variants of [`RouteFault`]; the first four allocate nothing. `NoRoute` comes only
/// if no walk is usable. `NoMemory` says nothing about the payment.
pub fn least(alloc: Global, view: &View, request: &Request) -> Result<Route, RouteFault>
    // A request that is refused whatever the edges are is refused for its first reason.
    ensures refused { (fault : RouteFault) → refusal request.now ≡ Some fault → result ≡ Err fault }

    // Otherwise the answer is the best route, or that there is none, unless memory runs out.
    ensures answer { (result ≡ Err RouteFault.NoMemory) ⊎ IsAnswer (point_edges view.now) request.now result }
{
    let request = request.lawful()?;
    certain(found_within(
        alloc,
        view,
        &request,
        &RouteLimits::none(),
        NoPenalties,
        &SearchBudget::any(),
    ))
}

/// The same route, found by a pool of workers, as [`answer_chunked`] says.
fn least_pooled<Rt: Threads + Sync, G: Gate>(
    pool: &Pool<'_, Rt, G>,
    view: &View,
    request: &Request,
) -> Result<Route, RouteFault>
    ensures refused { (fault : RouteFault) → refusal request.now ≡ Some fault → result ≡ Err fault }
    ensures answer { (result ≡ Err RouteFault.NoMemory) ⊎ IsAnswer (point_edges view.now) request.now result }
{
    certain(found_pooled(pool, view, &request.lawful()?))
}

/// The same route as [`least`], found by several workers, for any number of them from 1 to 64, and
/// whatever the gate does: as [`answer_chunked`] finds it, with a pool of these.
pub fn least_chunked<Rt: Threads + Sync, G: Gate>(
    rt: &Rt,
    alloc: Global,
    workers: usize,
    gate: &G,
    view: &View,
    request: &Request,
) -> Result<Route, RouteFault>
    requires workers { (1 ≤ workers) × (workers ≤ 64) }
    ensures refused { (fault : RouteFault) → refusal request.now ≡ Some fault → result ≡ Err fault }
    ensures answer { (result ≡ Err RouteFault.NoMemory) ⊎ IsAnswer (point_edges view.now) request.now result }
{
    let pool = Pool {
        rt,
        alloc,
        workers,
        gate,
    };
    least_pooled(&pool, view, request)
}

/// The answer to a payment over the edges of a map with its view: the answer of [`least`], which is
/// unique given the rows, whatever the order of the view's edges.
///
/// A request that is refused whatever the edges are is refused for its first reason, even if memory is short.
/// `NoMemory` says nothing about the payment.
pub fn answer(alloc: Global, map: &Map, view: &View, request: &Request) -> Result<Route, RouteFault>
    requires beside { IsGraphOf map.now view.now }
    ensures refused { (fault : RouteFault) → refusal request.now ≡ Some fault → result ≡ Err fault }
    ensures answer { (result ≡ Err RouteFault.NoMemory) ⊎
        (result ≡ answer_of (edges_of view.now.known map.now) request.now) }
{
    map.rows_are_lawful();
    view.shows_the_edges();
    least(alloc, view, request)
}

/// The same answer, found by a pool of workers, whatever its gate does.
///
/// The first 64 labels leave the queue frontier by frontier: all with the same lower bound and the same number of
/// edges. A frontier is relaxed by one call of [`Pool::map`], in as many chunks as it has eighths of the network's
/// nodes (512 labels are always enough for a chunk), and merged in order by one thread. Then the search is best-first,
/// on one thread, for some thousands of labels and until some walk is found: most searches finish there. If not, it
/// continues layer by layer: the labels with one number of edges are a frontier, with 512 labels for each chunk. There
/// are at most 20 layers.
///
/// Each chunk passes the gate with its number, from 0. A frontier with too few labels for a chunk is relaxed on the
/// caller's thread, as is all that comes best-first, and passes no gate.
pub fn answer_chunked<Rt: Threads + Sync, G: Gate>(
    pool: &Pool<'_, Rt, G>,
    map: &Map,
    view: &View,
    request: &Request,
) -> Result<Route, RouteFault>
    requires beside { IsGraphOf map.now view.now }
    ensures refused { (fault : RouteFault) → refusal request.now ≡ Some fault → result ≡ Err fault }
    ensures answer { (result ≡ Err RouteFault.NoMemory) ⊎
        (result ≡ answer_of (edges_of view.now.known map.now) request.now) }
{
    map.rows_are_lawful();
    view.shows_the_edges();
    least_pooled(pool, view, request)
}
