//! The bytes of a payer, and a payer of bytes.

ghost use Rattle.std.specs.Prelude.{◌≡◌, None};
ghost use Rattle.lgm_payer.specs.Payers.{PayerState};
ghost use Rattle.lgm_payer_state.specs.States.{state_bytes, IsKept};
ghost use Rattle.lgm_c.specs.SavedState.{Saves, SavesIn, Loads, LoadsBack};
ghost use Rattle.lgm_c.specs.Status.{status_of};
ghost use Rattle.lgm_c.specs.Writing.{buffer};

use crate::fault::{Fault, status};
use crate::handle::{Handle, with_held};
use crate::output::write_bytes;
use crate::payer_handle::LgmPayer;
use lgm_payer::Payer;
use lgm_payer_state::{read, write};
use std::alloc::Global;

/// Writes the bytes of a payer, or their length alone.
fn write_saved(
    alloc: Global,
    held: &Payer,
    room: &mut [u8],
    needed: &mut usize,
) -> Result<(), Fault>
    ensures { SavesIn state_bytes IsKept held.now (status_of result)
        (buffer room.old needed.old) (buffer room.new needed.new) }
{
    let bytes = write(alloc, held)?;
    write_bytes(bytes.as_slice(), room, needed)
}

/// Writes all that a payer is as bytes, with a version and a checksum.
#[unsafe(no_mangle)]
pub extern "C" fn lgm_payer_save(
    alloc: Global,
    payer: &mut LgmPayer,
    bytes: &mut [u8],
    needed: &mut usize,
) -> u32
    ensures same { payer.new.value ≡ payer.old.value }
    ensures saved { Saves state_bytes IsKept payer.old.value result
        (buffer bytes.old needed.old) (buffer bytes.new needed.new) }
{
    with_held!(
        alloc,
        payer,
        |held| status(&write_saved(alloc, &held, bytes, needed))
    )
}

/// Opens a closed handle with the payer that was saved as these bytes.
#[unsafe(no_mangle)]
pub extern "C" fn lgm_payer_load(alloc: Global, payer: &mut LgmPayer, bytes: &[u8]) -> u32
    ensures loaded { Loads state_bytes bytes.now result payer.old.value payer.new.value }
    // What was saved is loaded as the same payer, unless memory runs out.
    ensures back { (state : PayerState) → IsKept state → bytes.now ≡ state_bytes state → payer.old.value ≡ None
        → LoadsBack state result payer.new.value }
{
    if payer.is_open() {
        return Fault::Open.number();
    }
    match read(alloc, bytes) {
        Ok(held) => payer.fill(alloc, held),
        Err(fault) => Fault::from(fault).number(),
    }
}
