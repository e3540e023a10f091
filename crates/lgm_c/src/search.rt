//! The search for a route in a network with its view.

ghost use Rattle.std.specs.Prelude.{◌≡◌, ◌≤◌, None, Some, length, IfErr, OnOk};
ghost use Rattle.lgm_c.specs.Attempts.{unsearched};
ghost use Rattle.lgm_timeline.specs.History.{HasView};
ghost use Rattle.lgm_c.specs.inner.Searching.{IsFound, IsRouted, IsReasonFound, number_found};

use crate::attempt::Attempt;
use crate::fault::Fault;
use lgm_graph::{MAX_CHANNELS, Network};
use lgm_route::{Found, NoRouteReason, SearchFault, find_over, no_route_reason};
use lgm_store::Map;
use std::alloc::Global;

/// Whether a route is to be searched for, or why there is none whatever the channels are.
pub(crate) fn is_searched(map: &Map, attempt: &Attempt<'_, '_>) -> Result<(), Fault>
    ensures searched { OnOk result (unsearched attempt.now map.now ≡ None) }
    ensures small { OnOk result (length attempt.now.overlay.extra ≤ 100000) }
    ensures refused { IfErr result (λ fault. unsearched attempt.now map.now ≡ Some fault) }
{
    if let Some(fault) = attempt.wrong_argument() {
        return Err(Fault::Argument(fault));
    }
    if MAX_CHANNELS < map.count() {
        return Err(Fault::Full);
    }
    match attempt.request().refusal() {
        Some(reason) => Err(Fault::from(reason)),
        None => Ok(()),
    }
}

/// The best route for an attempt in the view of a network.
fn found(alloc: Global, network: &Network, attempt: &Attempt<'_, '_>) -> Result<Found, SearchFault>
    requires viewed { HasView network.now }
    requires small { length attempt.now.overlay.extra ≤ 100000 }
    ensures { IsFound attempt.now network.now.known network.now.rows result }
{
    let Some(view) = network.view() else {
        unreachable!();
    };
    let overlay = attempt.overlay(alloc)?;
    find_over(
        alloc,
        network.map(),
        view,
        &overlay,
        attempt.search(),
        attempt.request(),
    )
}

/// The best route for an attempt for which one is to be searched for.
pub(crate) fn search(
    alloc: Global,
    network: &Network,
    attempt: &Attempt<'_, '_>,
) -> Result<Found, Fault>
    requires viewed { HasView network.now }
    requires small { length attempt.now.overlay.extra ≤ 100000 }
    requires searched { unsearched attempt.now network.now.rows ≡ None }
    ensures { IsRouted attempt.now network.now.known network.now.rows result }
{
    Ok(found(alloc, network, attempt)?)
}

/// The number of a reason, 0 without one, or that of the fault.
pub(crate) fn reason_number(found: Result<Option<NoRouteReason>, SearchFault>) -> u32
    ensures { result ≡ number_found found }
{
    match found {
        Ok(Some(reason)) => u32::from(reason.number()),
        Ok(None) => 0,
        Err(fault) => Fault::from(fault).number(),
    }
}

/// Why there is no route for an attempt for which one is to be searched for, if there is none.
pub(crate) fn reason(
    alloc: Global,
    network: &Network,
    attempt: &Attempt<'_, '_>,
) -> Result<Option<NoRouteReason>, SearchFault>
    requires viewed { HasView network.now }
    requires small { length attempt.now.overlay.extra ≤ 100000 }
    ensures { IsReasonFound attempt.now network.now.known network.now.rows result }
{
    let Some(view) = network.view() else {
        unreachable!();
    };
    let overlay = attempt.overlay(alloc)?;
    no_route_reason(
        alloc,
        network.map(),
        view,
        &overlay,
        attempt.search(),
        attempt.request(),
    )
}
