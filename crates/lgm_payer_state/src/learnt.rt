//! The bytes of what was learnt of edges, without a payer.

ghost use Rattle.std.specs.Prelude.{◌≡◌, IfOk, OnOk, MatchResult};
ghost use Rattle.lgm_wire.specs.reading.Reading.{Gives};
ghost use Rattle.lgm_save.specs.Changed.{IsChangedAtOne};
ghost use Rattle.lgm_graph.specs.Estimates.{Entries};
ghost use Rattle.lgm_payer_state.specs.Estimates.{learnt_bytes};
ghost use Rattle.lgm_payer_state.specs.States.{estimates_opening, estimates_bytes, AreKept};
ghost use Rattle.lgm_payer_state.specs.reading.EstimatesReading.{learnt_at};
ghost use Rattle.lgm_payer_state.specs.reading.PayersReading.{whole_at};

use crate::estimates::{read_learnt, write_learnt};
use crate::state_fault::StateFault;
use lgm_gossip::Bytes;
use lgm_graph::Estimates;
use lgm_save::{body_behind, seal};
use std::alloc::{AllocError, Global};

/// The text "lgm est" with a line feed, and the version of the format.
fn opening() -> [u8; 12]
    ensures { result ≡ estimates_opening }
{
    *b"lgm est\n\0\0\0\x01"
}

/// The bytes of what was learnt of edges.
pub fn write_estimates(alloc: Global, learnt: &Estimates) -> Result<Bytes, AllocError>
    ensures written { IfOk result (λ bytes. bytes ≡ estimates_bytes learnt.now) }
    ensures kept { OnOk result (AreKept learnt.now) }
{
    let mut out = Vec::new(alloc);
    out.extend_from_slice(&opening())?;
    write_learnt(alloc, learnt, &mut out)?;
    seal(&mut out)?;
    Ok(Bytes::from_vec(out))
}

/// The estimates that are all of the bytes.
fn read_whole(alloc: Global, bytes: &[u8]) -> Result<Estimates, StateFault>
    ensures given { Gives StateFault.NoMemory (λ learnt. learnt) result (whole_at learnt_at bytes.now) }
    ensures exact { IfOk result (λ learnt. bytes.now ≡ learnt_bytes learnt) }
{
    let (learnt, rest) = read_learnt(alloc, bytes)?;
    if !rest.is_empty() {
        return Err(StateFault::Damaged);
    }
    Ok(learnt)
}

/// The estimates whose bytes these are. They are read as a whole or not at all, and a count in them takes no memory beyond what
/// the bytes themselves have.
pub fn read_estimates(alloc: Global, bytes: &[u8]) -> Result<Estimates, StateFault>
    // They are their bytes.
    ensures exact { IfOk result (λ learnt. bytes.now ≡ estimates_bytes learnt) }

    // The bytes that were written of estimates are read as these, unless memory runs out.
    ensures back { (learnt : Entries) → AreKept learnt → bytes.now ≡ estimates_bytes learnt
        → MatchResult result (λ found. found ≡ learnt) (λ fault. fault ≡ StateFault.NoMemory) }

    // Bytes of which one was changed are refused.
    ensures changed { (learnt : Entries) → IsChangedAtOne (estimates_bytes learnt) bytes.now → IfOk result (λ _. ⊥) }
{
    let Some(body) = body_behind(&opening(), bytes) else {
        return Err(StateFault::Damaged);
    };
    read_whole(alloc, body)
}
