//! The bytes of what is known of edges, and estimates of bytes.

ghost use Rattle.std.specs.Prelude.{◌≡◌, None};
ghost use Rattle.lgm_graph.specs.Estimates.{Entries};
ghost use Rattle.lgm_payer_state.specs.States.{estimates_bytes, AreKept};
ghost use Rattle.lgm_c.specs.SavedState.{Saves, SavesIn, Loads, LoadsBack};
ghost use Rattle.lgm_c.specs.Status.{status_of};
ghost use Rattle.lgm_c.specs.Writing.{buffer};

use crate::estimates_handle::LgmEstimates;
use crate::fault::{Fault, status};
use crate::handle::{Handle, with_held};
use crate::output::write_bytes;
use lgm_graph::Estimates;
use lgm_payer_state::{read_estimates, write_estimates};
use std::alloc::Global;

/// Writes the bytes of estimates, or their length alone.
fn write_saved(
    alloc: Global,
    held: &Estimates,
    room: &mut [u8],
    needed: &mut usize,
) -> Result<(), Fault>
    ensures { SavesIn estimates_bytes AreKept held.now (status_of result)
        (buffer room.old needed.old) (buffer room.new needed.new) }
{
    let bytes = write_estimates(alloc, held)?;
    write_bytes(bytes.as_slice(), room, needed)
}

/// Writes what is known of edges as bytes, with a version and a checksum.
#[unsafe(no_mangle)]
pub extern "C" fn lgm_estimates_save(
    alloc: Global,
    estimates: &mut LgmEstimates,
    bytes: &mut [u8],
    needed: &mut usize,
) -> u32
    ensures same { estimates.new.value ≡ estimates.old.value }
    ensures saved { Saves estimates_bytes AreKept estimates.old.value result
        (buffer bytes.old needed.old) (buffer bytes.new needed.new) }
{
    with_held!(
        alloc,
        estimates,
        |held| status(&write_saved(alloc, &held, bytes, needed))
    )
}

/// Opens a closed handle with the estimates that were saved as these bytes.
#[unsafe(no_mangle)]
pub extern "C" fn lgm_estimates_load(
    alloc: Global,
    estimates: &mut LgmEstimates,
    bytes: &[u8],
) -> u32
    ensures loaded { Loads estimates_bytes bytes.now result estimates.old.value estimates.new.value }
    // What was saved is loaded as the same, unless memory runs out.
    ensures back { (known : Entries) → AreKept known → bytes.now ≡ estimates_bytes known → estimates.old.value ≡ None
        → LoadsBack known result estimates.new.value }
{
    if estimates.is_open() {
        return Fault::Open.number();
    }
    match read_estimates(alloc, bytes) {
        Ok(held) => estimates.fill(alloc, held),
        Err(fault) => Fault::from(fault).number(),
    }
}
