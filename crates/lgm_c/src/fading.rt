//! What was learnt of edges fades, that of a payer and estimates alone.

ghost use Rattle.std.specs.Prelude.{◌≡◌, Some};
ghost use Rattle.lgm_odds.specs.Fading.{AreFaded};
ghost use Rattle.lgm_payer.specs.Events.{IsFadedIn};
ghost use Rattle.lgm_c.specs.Fading.{Fades};
ghost use Rattle.lgm_c.specs.Status.{status_of};

use crate::chain_map::ChainMap;
use crate::estimates_handle::LgmEstimates;
use crate::fault::{Fault, status};
use crate::handle::{Handle, with_held};
use crate::map_handle::LgmMap;
use crate::payer_handle::LgmPayer;
use lgm_graph::Estimates;
use lgm_odds::{Elapsed, fade};
use lgm_payer::Payer;
use std::alloc::Global;

/// What a payer has learnt fades, beside the map of a state.
fn fade_payer(alloc: Global, held: &mut Payer, state: &ChainMap, time: Elapsed) -> Result<(), Fault>
    ensures { Fades (λ rows. IsFadedIn rows time) (status_of result) (Some state.now) (Some held.old) (Some held.new) }
{
    held.fade(alloc, state.map(), time)?;
    Ok(())
}

/// The same, beside the map of a handle.
fn fade_payer_beside(alloc: Global, held: &mut Payer, map: &mut LgmMap, time: Elapsed) -> u32
    ensures same { map.new.value ≡ map.old.value }
    ensures faded { Fades (λ rows. IsFadedIn rows time) result map.old.value (Some held.old) (Some held.new) }
{
    with_held!(
        alloc,
        map,
        |state| status(&fade_payer(alloc, held, &state, time))
    )
}

/// What a payer has learnt of edges fades: half of it is left for each half-life.
#[unsafe(no_mangle)]
pub extern "C" fn lgm_payer_fade(
    alloc: Global,
    payer: &mut LgmPayer,
    map: &mut LgmMap,
    elapsed: u32,
    half_life: u32,
) -> u32
    ensures same { map.new.value ≡ map.old.value }
    ensures faded { Fades (λ rows. IsFadedIn rows (record { half_life = half_life; elapsed = elapsed })) result
        map.old.value payer.old.value payer.new.value }
{
    let time = Elapsed { half_life, elapsed };
    with_held!(
        alloc,
        payer,
        |held| fade_payer_beside(alloc, &mut held, map, time)
    )
}

/// Estimates fade, beside the map of a state.
fn fade_estimates(
    alloc: Global,
    held: &mut Estimates,
    state: &ChainMap,
    time: Elapsed,
) -> Result<(), Fault>
    ensures { Fades (λ rows. AreFaded rows time) (status_of result) (Some state.now) (Some held.old) (Some held.new) }
{
    let left = fade(alloc, state.map(), held, time)?;
    *held = left;
    Ok(())
}

/// The same, beside the map of a handle.
fn fade_estimates_beside(
    alloc: Global,
    held: &mut Estimates,
    map: &mut LgmMap,
    time: Elapsed,
) -> u32
    ensures same { map.new.value ≡ map.old.value }
    ensures faded { Fades (λ rows. AreFaded rows time) result map.old.value (Some held.old) (Some held.new) }
{
    with_held!(
        alloc,
        map,
        |state| status(&fade_estimates(alloc, held, &state, time))
    )
}

/// What is known of edges fades, as what a payer has learnt does.
#[unsafe(no_mangle)]
pub extern "C" fn lgm_estimates_fade(
    alloc: Global,
    estimates: &mut LgmEstimates,
    map: &mut LgmMap,
    elapsed: u32,
    half_life: u32,
) -> u32
    ensures same { map.new.value ≡ map.old.value }
    ensures faded { Fades (λ rows. AreFaded rows (record { half_life = half_life; elapsed = elapsed })) result
        map.old.value estimates.old.value estimates.new.value }
{
    let time = Elapsed { half_life, elapsed };
    with_held!(
        alloc,
        estimates,
        |held| fade_estimates_beside(alloc, &mut held, map, time)
    )
}
