//! What becomes of parts and payments.

ghost use Rattle.std.specs.Prelude.{◌≡◌, Some};
ghost use Rattle.lgm_payer.specs.declared.failure.Ending.TheVariants as endings;
ghost use Rattle.lgm_c.specs.Paying.{failure_given, Abandons, Ends, Forgets, Fulfils};
ghost use Rattle.lgm_c.specs.Status.{status_of};

use crate::fault::{Fault, status};
use crate::handle::{Handle, with_held};
use crate::payer_handle::LgmPayer;
use lgm_payer::{Failure, Payer};
use std::alloc::Global;

/// A failure message.
fn failure_given(place: u8, code: u16, is_renewed: bool) -> Failure
    ensures { result ≡ failure_given place code is_renewed }
{
    Failure {
        place: usize::from(place),
        code,
        is_renewed,
    }
}

fn fail(
    alloc: Global,
    held: &mut Payer,
    payment: u64,
    part: u64,
    failure: Failure,
) -> Result<(), Fault>
    ensures { Ends payment part (endings.Failed failure) (status_of result) (Some held.old) (Some held.new) }
{
    held.failed(alloc, payment, part, failure)?;
    Ok(())
}

/// Notes that a part failed with a failure message (BOLT 4, "Failure Messages"), and learns from it.
#[unsafe(no_mangle)]
pub extern "C" fn lgm_payer_failed(
    alloc: Global,
    payer: &mut LgmPayer,
    payment: u64,
    part: u64,
    place: u8,
    code: u16,
    is_renewed: bool,
) -> u32
    ensures { Ends payment part (endings.Failed (failure_given place code is_renewed)) result
        payer.old.value payer.new.value }
{
    let failure = failure_given(place, code, is_renewed);
    with_held!(
        alloc,
        payer,
        |held| status(&fail(alloc, &mut held, payment, part, failure))
    )
}

fn lose(alloc: Global, held: &mut Payer, payment: u64, part: u64) -> Result<(), Fault>
    ensures { Ends payment part endings.Unreadable (status_of result) (Some held.old) (Some held.new) }
{
    held.unreadable(alloc, payment, part)?;
    Ok(())
}

/// Notes that a part failed, and that no failure message could be read.
#[unsafe(no_mangle)]
pub extern "C" fn lgm_payer_unreadable(
    alloc: Global,
    payer: &mut LgmPayer,
    payment: u64,
    part: u64,
) -> u32
    ensures { Ends payment part endings.Unreadable result
        payer.old.value payer.new.value }
{
    with_held!(
        alloc,
        payer,
        |held| status(&lose(alloc, &mut held, payment, part))
    )
}

fn fulfil(held: &mut Payer, payment: u64) -> Result<(), Fault>
    ensures { Fulfils payment (status_of result) (Some held.old) (Some held.new) }
{
    held.fulfilled(payment)?;
    Ok(())
}

/// Notes that the payee took the whole of a payment.
#[unsafe(no_mangle)]
pub extern "C" fn lgm_payer_fulfilled(alloc: Global, payer: &mut LgmPayer, payment: u64) -> u32
    ensures { Fulfils payment result payer.old.value payer.new.value }
{
    with_held!(alloc, payer, |held| status(&fulfil(&mut held, payment)))
}

fn abandon(held: &mut Payer, payment: u64) -> Result<(), Fault>
    ensures { Abandons payment (status_of result) (Some held.old) (Some held.new) }
{
    held.abandon(payment)?;
    Ok(())
}

/// Sends nothing more for a payment. What is under way is waited for.
#[unsafe(no_mangle)]
pub extern "C" fn lgm_payer_abandon(alloc: Global, payer: &mut LgmPayer, payment: u64) -> u32
    ensures { Abandons payment result payer.old.value payer.new.value }
{
    with_held!(alloc, payer, |held| status(&abandon(&mut held, payment)))
}

fn forget(held: &mut Payer, payment: u64) -> Result<(), Fault>
    ensures { Forgets payment (status_of result) (Some held.old) (Some held.new) }
{
    held.forget(payment)?;
    Ok(())
}

/// Forgets a payment of which nothing is under way.
#[unsafe(no_mangle)]
pub extern "C" fn lgm_payer_forget(alloc: Global, payer: &mut LgmPayer, payment: u64) -> u32
    ensures { Forgets payment result payer.old.value payer.new.value }
{
    with_held!(alloc, payer, |held| status(&forget(&mut held, payment)))
}
