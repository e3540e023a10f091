//! Payers.

ghost use Rattle.std.specs.Prelude.{◌≡◌, ◌++◌, IfOk, OnOk};
ghost use Rattle.lgm_wire.specs.reading.Reading.{Gives};
ghost use Rattle.lgm_payer_state.specs.Written.{IsWritten};
ghost use Rattle.lgm_payer_state.specs.Payers.{payer_bytes};
ghost use Rattle.lgm_payer_state.specs.reading.PayersReading.{payer_at, whole_at};

use crate::estimates::{read_learnt, write_learnt};
use crate::fields::{number64, write64};
use crate::lists::{read_all, write_all};
use crate::state_fault::StateFault;
use crate::stored::Stored;
use lgm_gossip::Point;
use lgm_payer::{Payer, Payment};
use std::alloc::{AllocError, Global};

#[tactic(auto, unfolding(crate::specs::Payers::payer_bytes, crate::specs::reading::PayersReading::payer_at))]
pub(crate) fn write_payer(alloc: Global, payer: &Payer, out: &mut Vec<u8>) -> Result<(), AllocError>
    ensures { OnOk result (IsWritten payer_bytes payer_at payer.now out.old.items out.new.items) }
{
    payer.point().write(out)?;
    write64(payer.begun(), out)?;
    write64(payer.sent(), out)?;
    write64(payer.settled(), out)?;
    write_all(payer.payments(), out)?;
    write_learnt(alloc, payer.learnt(), out)?;
    Ok(())
}

/// A payer, and the bytes behind it.
#[tactic(auto, unfolding(crate::specs::Payers::payer_bytes, crate::specs::reading::PayersReading::payer_at))]
fn payer(alloc: Global, bytes: &[u8]) -> Result<(Payer, &[u8]), StateFault>
    ensures given { Gives StateFault.NoMemory (λ x. (x.0, x.1.now)) result (payer_at bytes.now) }
    ensures exact { IfOk result (λ x. bytes.now ≡ payer_bytes x.0 ++ x.1.now) }
{
    let (point, rest) = Point::read(alloc, bytes)?;
    let (begun, rest) = number64(rest)?;
    let (sent, rest) = number64(rest)?;
    let (settled, rest) = number64(rest)?;
    let (payments, rest) = read_all::<Payment>(alloc, rest)?;
    let (learnt, rest) = read_learnt(alloc, rest)?;
    let payer = Payer::restored(point, payments, learnt, begun, sent, settled);
    Ok((payer, rest))
}

/// The payer that is all of the bytes.
pub(crate) fn read_payer(alloc: Global, bytes: &[u8]) -> Result<Payer, StateFault>
    ensures given { Gives StateFault.NoMemory (λ payer. payer) result (whole_at payer_at bytes.now) }
    ensures exact { IfOk result (λ payer. bytes.now ≡ payer_bytes payer) }
{
    let (payer, rest) = payer(alloc, bytes)?;
    if !rest.is_empty() {
        return Err(StateFault::Damaged);
    }
    Ok(payer)
}
