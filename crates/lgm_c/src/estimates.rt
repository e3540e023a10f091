//! What a payer has learnt of edges: the calls on a handle of estimates.

ghost use Rattle.std.specs.Prelude.{◌≡◌, [], Some, None};
ghost use Rattle.lgm_c.specs.Estimating.{Carries, FailsAt, Forgets, Sets, c_estimate, count_of};
ghost use Rattle.lgm_c.specs.Estimating.{entry_at, estimate_found, estimate_given, named};
ghost use Rattle.lgm_c.specs.Opening.{Opens};
ghost use Rattle.lgm_c.specs.Status.{if_open, status_of, Finds};

use crate::estimates_handle::LgmEstimates;
use crate::fault::{Fault, status};
use crate::handle::{Handle, with_held};
use lgm_gossip::{Point, Scid};
use lgm_graph::{Estimate, Estimates};
use std::alloc::Global;

/// What a payer believes of an edge.
#[repr(C)]
#[derive(Clone, Copy)]
pub struct LgmEstimate {
    /// It surely carries this much, in msat.
    pub least_msat: u64,
    /// It surely carries no more than this, in msat.
    pub most_msat: u64,
    /// What the payer would rather pay than use it, in msat.
    pub penalty_msat: u64,
}

/// Opens a closed handle: nothing is known.
#[unsafe(no_mangle)]
pub extern "C" fn lgm_estimates_open(alloc: Global, estimates: &mut LgmEstimates) -> u32
    ensures { Opens [] result estimates.old.value estimates.new.value }
{
    if estimates.is_open() {
        return Fault::Open.number();
    }
    estimates.fill(alloc, Estimates::new(alloc))
}

/// Frees what a handle has, if it is open, and closes it.
#[unsafe(no_mangle)]
pub extern "C" fn lgm_estimates_free(alloc: Global, estimates: &mut LgmEstimates)
    ensures { estimates.new.value ≡ None }
{
    estimates.take(alloc);
}

/// The number of edges of which something is known: 0 of a closed handle.
#[unsafe(no_mangle)]
pub extern "C" fn lgm_estimates_count(alloc: Global, estimates: &mut LgmEstimates) -> usize
    ensures same { estimates.new.value ≡ estimates.old.value }
    ensures count { result ≡ count_of estimates.old.value }
{
    with_held!(alloc, estimates, 0, |held| held.len())
}

fn c_estimate(estimate: Estimate) -> LgmEstimate
    ensures { result ≡ c_estimate estimate }
{
    LgmEstimate {
        least_msat: estimate.least,
        most_msat: estimate.most,
        penalty_msat: estimate.penalty,
    }
}

/// Writes what is believed of an edge.
fn write_estimate(
    held: &Estimates,
    scid: u64,
    from: &[u8; 33],
    estimate: &mut LgmEstimate,
) -> Result<(), Fault>
    ensures { Finds (estimate_found scid from.now held.now) (status_of result) estimate.old estimate.new }
{
    *estimate = c_estimate(held.get(Scid::from_u64(scid), &Point(*from)));
    Ok(())
}

/// What is believed of the edge with an id out of a node, also if nothing is known of it.
#[unsafe(no_mangle)]
pub extern "C" fn lgm_estimate(
    alloc: Global,
    estimates: &mut LgmEstimates,
    scid: u64,
    from: &[u8; 33],
    estimate: &mut LgmEstimate,
) -> u32
    ensures same { estimates.new.value ≡ estimates.old.value }
    ensures estimate { Finds (if_open estimates.old.value (estimate_found scid from.now)) result
        estimate.old estimate.new }
{
    with_held!(
        alloc,
        estimates,
        |held| status(&write_estimate(&held, scid, from, estimate))
    )
}

/// Writes the edge at a place, and what is believed of it.
fn write_entry(
    held: &Estimates,
    place: usize,
    scid: &mut u64,
    from: &mut [u8; 33],
    estimate: &mut LgmEstimate,
) -> Result<(), Fault>
    ensures { Finds (entry_at place held.now) (status_of result)
        (named scid.old from.old estimate.old) (named scid.new from.new estimate.new) }
{
    let Some((key, believed)) = held.at(place) else {
        return Err(Fault::None);
    };
    let Point(node) = key.from;
    *scid = key.scid.to_u64();
    *from = node;
    *estimate = c_estimate(believed);
    Ok(())
}

/// The edge at a place among those of which something is known, and what is believed of it.
#[unsafe(no_mangle)]
pub extern "C" fn lgm_estimates_at(
    alloc: Global,
    estimates: &mut LgmEstimates,
    place: usize,
    scid: &mut u64,
    from: &mut [u8; 33],
    estimate: &mut LgmEstimate,
) -> u32
    ensures same { estimates.new.value ≡ estimates.old.value }
    ensures entry { Finds (if_open estimates.old.value (entry_at place)) result
        (named scid.old from.old estimate.old) (named scid.new from.new estimate.new) }
{
    with_held!(
        alloc,
        estimates,
        |held| status(&write_entry(&held, place, scid, from, estimate))
    )
}

fn estimate_given(estimate: &LgmEstimate) -> Estimate
    ensures { result ≡ estimate_given estimate.now }
{
    Estimate {
        least: estimate.least_msat,
        most: estimate.most_msat,
        penalty: estimate.penalty_msat,
    }
}

fn set(
    held: &mut Estimates,
    scid: u64,
    from: &[u8; 33],
    estimate: &LgmEstimate,
) -> Result<(), Fault>
    ensures { Sets scid from.now estimate.now (status_of result) (Some held.old) (Some held.new) }
{
    held.set(
        Scid::from_u64(scid),
        &Point(*from),
        estimate_given(estimate),
    )?;
    Ok(())
}

/// Sets what is believed of the edge with an id out of a node.
#[unsafe(no_mangle)]
pub extern "C" fn lgm_estimates_set(
    alloc: Global,
    estimates: &mut LgmEstimates,
    scid: u64,
    from: &[u8; 33],
    estimate: &LgmEstimate,
) -> u32
    ensures { Sets scid from.now estimate.now result
        estimates.old.value estimates.new.value }
{
    with_held!(
        alloc,
        estimates,
        |held| status(&set(&mut held, scid, from, estimate))
    )
}

fn carried(held: &mut Estimates, scid: u64, from: &[u8; 33], amount: u64) -> Result<(), Fault>
    ensures { Carries scid from.now amount (status_of result) (Some held.old) (Some held.new) }
{
    held.carried(Scid::from_u64(scid), &Point(*from), amount)?;
    Ok(())
}

/// Notes that an edge carried an amount, in msat.
#[unsafe(no_mangle)]
pub extern "C" fn lgm_estimates_carried(
    alloc: Global,
    estimates: &mut LgmEstimates,
    scid: u64,
    from: &[u8; 33],
    amount_msat: u64,
) -> u32
    ensures { Carries scid from.now amount_msat result
        estimates.old.value estimates.new.value }
{
    with_held!(
        alloc,
        estimates,
        |held| status(&carried(&mut held, scid, from, amount_msat))
    )
}

fn failed(held: &mut Estimates, scid: u64, from: &[u8; 33], amount: u64) -> Result<(), Fault>
    ensures { FailsAt scid from.now amount (status_of result) (Some held.old) (Some held.new) }
{
    held.failed(Scid::from_u64(scid), &Point(*from), amount)?;
    Ok(())
}

/// Notes that an edge failed to carry an amount, in msat.
#[unsafe(no_mangle)]
pub extern "C" fn lgm_estimates_failed(
    alloc: Global,
    estimates: &mut LgmEstimates,
    scid: u64,
    from: &[u8; 33],
    amount_msat: u64,
) -> u32
    ensures { FailsAt scid from.now amount_msat result
        estimates.old.value estimates.new.value }
{
    with_held!(
        alloc,
        estimates,
        |held| status(&failed(&mut held, scid, from, amount_msat))
    )
}

fn forget(held: &mut Estimates, scid: u64, from: &[u8; 33]) -> Result<(), Fault>
    ensures { Forgets scid from.now (status_of result) (Some held.old) (Some held.new) }
{
    if held.forget(Scid::from_u64(scid), &Point(*from)) {
        Ok(())
    } else {
        Err(Fault::None)
    }
}

/// Forgets what is known of an edge.
#[unsafe(no_mangle)]
pub extern "C" fn lgm_estimates_forget(
    alloc: Global,
    estimates: &mut LgmEstimates,
    scid: u64,
    from: &[u8; 33],
) -> u32
    ensures { Forgets scid from.now result estimates.old.value estimates.new.value }
{
    with_held!(
        alloc,
        estimates,
        |held| status(&forget(&mut held, scid, from))
    )
}
