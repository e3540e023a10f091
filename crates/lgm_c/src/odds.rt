//! The odds that a route fails.

ghost use Rattle.std.specs.Prelude.{◌≡◌, map};
ghost use Rattle.lgm_graph.specs.Estimates.{Entries};
ghost use Rattle.lgm_c.specs.Arrivals.{IsRoute, hops_given};
ghost use Rattle.lgm_c.specs.Attempts.{attempt_given, entries_of, limit_given};
ghost use Rattle.lgm_c.specs.TellingOdds.{TellsOdds, TellsOddsIn, TellsOddsOf, odds_told};
ghost use Rattle.lgm_c.specs.Status.{status_of};

use crate::argument_fault::ArgumentFault;
use crate::arrival::{is_route, route_given};
use crate::attempt::{Attempt, LgmAttempt};
use crate::chain_map::ChainMap;
use crate::estimates_handle::LgmEstimates;
use crate::fault::{Fault, status};
use crate::given::all_given;
use crate::handle::{Handle, with_held};
use crate::map_handle::LgmMap;
use crate::overlay::{extra_edge, limit_of};
use crate::routes::LgmHop;
use lgm_graph::Estimates;
use lgm_odds::route_odds;
use lgm_store::Map;
use std::alloc::Global;

/// Writes the odds that hops fail.
fn write_odds(
    alloc: Global,
    map: &Map,
    attempt: &LgmAttempt<'_>,
    estimates: &Estimates,
    hops: &[LgmHop],
    odds: &mut u32,
) -> Result<(), Fault>
    ensures { TellsOddsIn attempt.now map.now estimates.now hops.now (status_of result) odds.old odds.new }
{
    if let Some(fault) = Attempt::given(attempt, estimates).wrong_argument() {
        return Err(Fault::Argument(fault));
    }
    if !is_route(hops) {
        return Err(Fault::Argument(ArgumentFault::Hops));
    }
    let route = route_given(alloc, hops)?;
    let extra = all_given(alloc, attempt.edges, extra_edge)?;
    let limits = all_given(alloc, attempt.limits, limit_of)?;
    *odds = route_odds(map, &extra, &limits, estimates, &route);
    Ok(())
}

/// The same in the map of a handle.
fn write_odds_over(
    alloc: Global,
    map: &mut LgmMap,
    attempt: &LgmAttempt<'_>,
    estimates: &Estimates,
    hops: &[LgmHop],
    odds: &mut u32,
) -> u32
    ensures same { map.new.value ≡ map.old.value }
    ensures odds { TellsOdds attempt.now map.old.value estimates.now hops.now result odds.old odds.new }
{
    with_held!(
        alloc,
        map,
        |state| status(&write_odds(alloc, state.map(), attempt, estimates, hops, odds))
    )
}

/// Tells how likely a route is to fail, in millionths.
#[unsafe(no_mangle)]
pub extern "C" fn lgm_odds(
    alloc: Global,
    map: &mut LgmMap,
    attempt: &LgmAttempt<'_>,
    estimates: &mut LgmEstimates,
    hops: &[LgmHop],
    odds: &mut u32,
) -> u32
    ensures same { map.new.value ≡ map.old.value }
    ensures kept { estimates.new.value ≡ estimates.old.value }
    ensures odds { TellsOdds attempt.now map.old.value (entries_of estimates.old.value) hops.now result
        odds.old odds.new }
{
    let nothing = Estimates::new(alloc);
    with_held!(
        alloc,
        estimates,
        write_odds_over(alloc, map, attempt, &nothing, hops, odds),
        |known| write_odds_over(alloc, map, attempt, &known, hops, odds)
    )
}
