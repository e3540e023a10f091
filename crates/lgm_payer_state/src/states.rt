//! The bytes of a payer's state.

ghost use Rattle.std.specs.Prelude.{◌≡◌, IfOk, OnOk, MatchResult};
ghost use Rattle.lgm_save.specs.Changed.{IsChangedAtOne};
ghost use Rattle.lgm_payer.specs.Payers.{PayerState};
ghost use Rattle.lgm_payer_state.specs.States.{opening, state_bytes, IsKept};

use crate::payers::{read_payer, write_payer};
use crate::state_fault::StateFault;
use lgm_gossip::Bytes;
use lgm_payer::Payer;
use lgm_save::{body_behind, seal};
use std::alloc::{AllocError, Global};

/// The text "lgm pay" with a line feed, and the version of the format.
fn opening() -> [u8; 12]
    ensures { result ≡ opening }
{
    *b"lgm pay\n\0\0\0\x01"
}

/// The bytes of a payer's state: its payments with all parts that were ever sent, and what it has learnt.
pub fn write(alloc: Global, payer: &Payer) -> Result<Bytes, AllocError>
    ensures written { IfOk result (λ bytes. bytes ≡ state_bytes payer.now) }
    ensures kept { OnOk result (IsKept payer.now) }
{
    let mut out = Vec::new(alloc);
    out.extend_from_slice(&opening())?;
    write_payer(alloc, payer, &mut out)?;
    seal(&mut out)?;
    Ok(Bytes::from_vec(out))
}

/// The payer whose state these bytes are. They are read as a whole or not at all.
///
/// A count in them takes no memory beyond what the bytes themselves have. A payer that was stopped has to be told what
/// became of its parts since then before it sends more.
pub fn read(alloc: Global, bytes: &[u8]) -> Result<Payer, StateFault>
    // They are the bytes of its state.
    ensures exact { IfOk result (λ payer. bytes.now ≡ state_bytes payer) }

    // The bytes that were written of a state are read as it, unless memory runs out.
    ensures back { (state : PayerState) → IsKept state → bytes.now ≡ state_bytes state
        → MatchResult result (λ payer. payer ≡ state) (λ fault. fault ≡ StateFault.NoMemory) }

    // Bytes of which one was changed are refused.
    ensures changed { (state : PayerState) → IsChangedAtOne (state_bytes state) bytes.now → IfOk result (λ _. ⊥) }
{
    let Some(body) = body_behind(&opening(), bytes) else {
        return Err(StateFault::Damaged);
    };
    read_payer(alloc, body)
}

/// What is written is read as the same state. A call writes a payer and reads it again: its contract is the law.
pub fn written_is_read(alloc: Global, payer: &Payer) -> Result<Payer, StateFault>
    ensures { MatchResult result (λ again. again ≡ payer.now) (λ fault. fault ≡ StateFault.NoMemory) }
{
    let bytes = write(alloc, payer)?;
    read(alloc, bytes.as_slice())
}
