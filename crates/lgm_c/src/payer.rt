//! Opening and freeing payers, and what they have learnt of edges.

ghost use Rattle.std.specs.Prelude.{◌≡◌, None, IfOk};
ghost use Rattle.lgm_c.specs.Attempts.{entries_of};
ghost use Rattle.lgm_c.specs.Opening.{Opens};
ghost use Rattle.lgm_c.specs.Paying.{new_payer, sent_by, CopiesLearnt};

use crate::estimates_handle::LgmEstimates;
use crate::fault::Fault;
use crate::handle::{Handle, with_held};
use crate::payer_handle::LgmPayer;
use lgm_gossip::Point;
use lgm_graph::Estimates;
use lgm_payer::Payer;
use std::alloc::{AllocError, Global};

/// A copy of the estimates of a handle: of a closed one nothing is known.
fn copy_of(alloc: Global, estimates: &mut LgmEstimates) -> Result<Estimates, AllocError>
    ensures same { estimates.new.value ≡ estimates.old.value }
    ensures copy { IfOk result (λ copy. copy ≡ entries_of estimates.old.value) }
{
    with_held!(
        alloc,
        estimates,
        Ok(Estimates::new(alloc)),
        |known| known.copy()
    )
}

/// Opens a closed handle with a payer that has begun no payment, and has learnt what estimates have.
#[unsafe(no_mangle)]
pub extern "C" fn lgm_payer_open(
    alloc: Global,
    payer: &mut LgmPayer,
    point: &[u8; 33],
    estimates: &mut LgmEstimates,
) -> u32
    ensures kept { estimates.new.value ≡ estimates.old.value }
    ensures opened { Opens (new_payer point.now (entries_of estimates.old.value)) result
        payer.old.value payer.new.value }
{
    if payer.is_open() {
        return Fault::Open.number();
    }
    let Ok(learnt) = copy_of(alloc, estimates) else {
        return Fault::NoMemory.number();
    };
    payer.fill(alloc, Payer::new(alloc, Point(*point), learnt))
}

/// Frees what a handle has, if it is open, and closes it.
#[unsafe(no_mangle)]
pub extern "C" fn lgm_payer_free(alloc: Global, payer: &mut LgmPayer)
    ensures { payer.new.value ≡ None }
{
    payer.take(alloc);
}

/// How many parts were sent, over all payments: 0 of a closed handle.
#[unsafe(no_mangle)]
pub extern "C" fn lgm_payer_sent(alloc: Global, payer: &mut LgmPayer) -> u64
    ensures same { payer.new.value ≡ payer.old.value }
    ensures sent { result ≡ sent_by payer.old.value }
{
    with_held!(alloc, payer, 0, |held| held.sent())
}

/// Opens a closed handle of estimates with a copy of what a payer has learnt.
fn copy_learnt(alloc: Global, held: &Payer, estimates: &mut LgmEstimates) -> u32
    ensures { Opens held.now.learnt result estimates.old.value estimates.new.value }
{
    if estimates.is_open() {
        return Fault::Open.number();
    }
    match held.learnt().copy() {
        Ok(copy) => estimates.fill(alloc, copy),
        Err(_) => Fault::NoMemory.number(),
    }
}

/// Copies what was learnt of edges, and opens a closed handle of estimates with it.
#[unsafe(no_mangle)]
pub extern "C" fn lgm_payer_learnt(
    alloc: Global,
    payer: &mut LgmPayer,
    estimates: &mut LgmEstimates,
) -> u32
    ensures same { payer.new.value ≡ payer.old.value }
    ensures copied { CopiesLearnt payer.old.value result
        estimates.old.value estimates.new.value }
{
    with_held!(alloc, payer, |held| copy_learnt(alloc, &held, estimates))
}
