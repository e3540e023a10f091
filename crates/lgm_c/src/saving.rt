//! The bytes of a map, and a map of bytes.

ghost use Rattle.std.specs.Prelude.{◌≡◌, IfOk, IfErr};
ghost use Rattle.lgm_store.specs.Rows.{Rows};
ghost use Rattle.lgm_c.specs.MapState.{begun};
ghost use Rattle.lgm_c.specs.Opening.{known_of, Opens};
ghost use Rattle.lgm_c.specs.Saving.{Saves, SavesIn, Loads, LoadsOnly, IsOpened};
ghost use Rattle.lgm_c.specs.Status.{status_of};
ghost use Rattle.lgm_c.specs.Writing.{buffer};
ghost use Rattle.lgm_c.specs.inner.Unloading.{IsUnloaded};

use crate::chain_map::ChainMap;
use crate::changes::known_bits;
use crate::fault::{Fault, status};
use crate::handle::{Handle, with_held};
use crate::map_handle::LgmMap;
use lgm_gossip::ChainHash;
use lgm_save::{Saving, load, saved_is_loaded};
use lgm_store::{Map, Seed};
use std::alloc::Global;

/// Writes the bytes of a map of a chain, or their length alone.
fn write_saved(
    alloc: Global,
    chain: ChainHash,
    map: &Map,
    room: &mut [u8],
    needed: &mut usize,
) -> Result<(), Fault>
    ensures { SavesIn chain map.now (status_of result)
        (buffer room.old needed.old) (buffer room.new needed.new) }
{
    let saving = Saving::of(alloc, map)?;
    saved_is_loaded(map, &saving);
    *needed = saving.length();
    if room.len() < *needed {
        return Err(Fault::Room);
    }
    saving.write(&chain, room);
    Ok(())
}

/// Writes the map of a handle as bytes, with its chain, a version and a checksum.
#[unsafe(no_mangle)]
pub extern "C" fn lgm_save(
    alloc: Global,
    map: &mut LgmMap,
    bytes: &mut [u8],
    needed: &mut usize,
) -> u32
    ensures same { map.new.value ≡ map.old.value }
    ensures saved { Saves map.old.value result
        (buffer bytes.old needed.old) (buffer bytes.new needed.new) }
{
    with_held!(
        alloc,
        map,
        |state| status(&write_saved(alloc, *state.chain(), state.map(), bytes, needed))
    )
}

/// The map of a chain that was saved as these bytes.
fn loaded_map(
    alloc: Global,
    chain: &[u8; 32],
    all_known: bool,
    known: &[u8],
    seed: &[u8; 16],
    bytes: &[u8],
) -> Result<ChainMap, Fault>
    ensures loaded { IfOk result (IsOpened chain.now (known_of all_known known.now) bytes.now) }
    ensures refused { IfErr result (λ fault. IsUnloaded chain.now bytes.now fault) }
{
    let chain = ChainHash(*chain);
    let map = load(alloc, Seed::new(*seed), &chain, bytes)?;
    let known = known_bits(alloc, all_known, known)?;
    Ok(ChainMap::of(alloc, chain, known, map)?)
}

/// Opens a closed handle with the map of this chain that was saved as these bytes.
#[unsafe(no_mangle)]
pub extern "C" fn lgm_load(
    alloc: Global,
    map: &mut LgmMap,
    chain: &[u8; 32],
    all_known: bool,
    known: &[u8],
    seed: &[u8; 16],
    bytes: &[u8],
) -> u32
    ensures loaded { Loads chain.now (known_of all_known known.now) bytes.now result
        map.old.value map.new.value }
    // What was saved is loaded as the same map, unless memory runs out.
    ensures back { (rows : Rows) → LoadsOnly (record { 0 = chain.now }) bytes.now rows
        → Opens (begun chain.now (known_of all_known known.now) rows) result
        map.old.value map.new.value }
{
    if map.is_open() {
        return Fault::Open.number();
    }
    match loaded_map(alloc, chain, all_known, known, seed, bytes) {
        Ok(state) => map.fill(alloc, state),
        Err(fault) => fault.number(),
    }
}
