//! Opening and freeing handles, and offering messages, closes and bans.

ghost use Rattle.std.specs.Prelude.{◌≡◌, None, IfOk};
ghost use Rattle.lgm_c.specs.Offering.{Offers, Closes, Bans};
ghost use Rattle.lgm_c.specs.Evidence.{evidence_of};
ghost use Rattle.lgm_c.specs.MapState.{opened};
ghost use Rattle.lgm_c.specs.Opening.{known_of, Opens};

use crate::chain_map::ChainMap;
use crate::evidence::evidence;
use crate::fault::{Fault, status};
use crate::handle::{Handle, with_held};
use crate::map_handle::LgmMap;
use lgm_gossip::{ChainHash, Point, Scid};
use lgm_graph::Known;
use lgm_store::{Map, Seed};
use std::alloc::{AllocError, Global};

/// The feature bits of nodes that are known: all, or those that are set.
pub(crate) fn known_bits(alloc: Global, all: bool, bits: &[u8]) -> Result<Known, AllocError>
    ensures { IfOk result (λ known. known ≡ known_of all bits.now) }
{
    if all {
        Ok(Known::all())
    } else {
        Known::bits(alloc, bits)
    }
}

/// A map without channels and nodes, whose points are hashed by the seed.
fn new_map(
    alloc: Global,
    chain: &[u8; 32],
    all_known: bool,
    known: &[u8],
    seed: &[u8; 16],
) -> Result<ChainMap, AllocError>
    ensures { IfOk result (λ state. state ≡ opened chain.now (known_of all_known known.now)) }
{
    let known = known_bits(alloc, all_known, known)?;
    let map = Map::with_seed(alloc, Seed::new(*seed))?;
    ChainMap::of(alloc, ChainHash(*chain), known, map)
}

/// Opens a handle, with a map without channels and nodes.
#[unsafe(no_mangle)]
pub extern "C" fn lgm_open(
    alloc: Global,
    map: &mut LgmMap,
    chain: &[u8; 32],
    all_known: bool,
    known: &[u8],
    seed: &[u8; 16],
) -> u32
    ensures { Opens (opened chain.now (known_of all_known known.now)) result
        map.old.value map.new.value }
{
    if map.is_open() {
        return Fault::Open.number();
    }
    match new_map(alloc, chain, all_known, known, seed) {
        Ok(state) => map.fill(alloc, state),
        Err(_) => Fault::NoMemory.number(),
    }
}

/// Offers a message to the map, with the verdicts on its signatures and on the funding output that it names.
#[unsafe(no_mangle)]
pub extern "C" fn lgm_offer(
    alloc: Global,
    map: &mut LgmMap,
    message: &[u8],
    sig: u32,
    signer: &[u8; 33],
    funding: u32,
    sat: u64,
) -> u32
    ensures { Offers message.now (evidence_of sig signer.now funding sat) result
        map.old.value map.new.value }
{
    with_held!(alloc, map, |state| {
        let evidence = evidence(sig, signer, funding, sat);
        status(&state.offer(alloc, message, evidence))
    })
}

/// Closes a channel, since its funding output is spent.
#[unsafe(no_mangle)]
pub extern "C" fn lgm_close_channel(alloc: Global, map: &mut LgmMap, scid: u64) -> u32
    ensures { Closes scid result map.old.value map.new.value }
{
    with_held!(
        alloc,
        map,
        |state| status(&state.close(alloc, Scid::from_u64(scid)))
    )
}

/// Bans a node, and removes its channels, as contradicting announcements ban theirs.
#[unsafe(no_mangle)]
pub extern "C" fn lgm_ban(alloc: Global, map: &mut LgmMap, point: &[u8; 33]) -> u32
    ensures { Bans point.now result map.old.value map.new.value }
{
    with_held!(alloc, map, |state| status(&state.ban(alloc, Point(*point))))
}

/// Frees the map of a handle, if it is open, and closes the handle. A published map is freed with its last owner.
#[unsafe(no_mangle)]
pub extern "C" fn lgm_free(alloc: Global, map: &mut LgmMap)
    ensures { map.new.value ≡ None }
{
    map.take(alloc);
}
