//! What a map lacks of a peer's, and the messages that ask for it.

ghost use Rattle.std.specs.Prelude.{◌≡◌, ℕ, List, IfOk};
ghost use Rattle.lgm_c.specs.Status.{status_of};
ghost use Rattle.lgm_c.specs.Syncing.{Asks, AsksIn, Lacks, TellsLacking, Covers, TellsCovered};
ghost use Rattle.lgm_c.specs.Syncing.{range_query, filter_message, ids_query, lacking_given};
ghost use Rattle.lgm_c.specs.Syncing.{c_lacking, lacking_told, lacking_answer, covered_answer, channels};
ghost use Rattle.lgm_c.specs.Writing.{buffer};
ghost use Rattle.lgm_c.specs.inner.Framing.{MayWrite};
ghost use Rattle.lgm_c.specs.inner.Lacking.{MayList};

use crate::fault::{Fault, status};
use crate::given::all_given;
use crate::handle::{Handle, with_held};
use crate::map_handle::LgmMap;
use crate::output::{map_in_front, write_bytes};
use lgm_gossip::{Bytes, ChainHash, EncodeFault, RangeReply, Scid, Timestamps};
use lgm_store::Map;
use lgm_sync::{Lacking, ask_filter, ask_ids, ask_range, covered_by, lacking_of, read_reply};
use std::alloc::Global;

/// A channel of which a map lacks messages that a peer has.
#[repr(C)]
#[derive(Clone, Copy)]
pub struct LgmLacking {
    /// The channel.
    pub scid: u64,
    /// The timestamp of the peer's update by node 1, in seconds since 1970; 0 if there is none, or the reply tells none.
    pub timestamp_1: u32,
    /// The same of the update by node 2.
    pub timestamp_2: u32,
    /// Which messages are lacking, as a query asks for them (BOLT 7, `query_flag`).
    pub flags: u8,
}

/// Writes a message, or its length alone, unless memory ran out.
fn write_encoded(
    encoded: Result<Bytes, EncodeFault>,
    room: &mut [u8],
    needed: &mut usize,
) -> Result<(), Fault>
    ensures { (bytes : List ℕ) → IfOk encoded (λ found. found ≡ bytes)
        → MayWrite bytes (status_of result) (buffer room.old needed.old) (buffer room.new needed.new) }
{
    let Ok(bytes) = encoded else {
        return Err(Fault::NoMemory);
    };
    write_bytes(bytes.as_slice(), room, needed)
}

fn write_range(
    alloc: Global,
    chain: &ChainHash,
    first_block: u32,
    blocks: u32,
    room: &mut [u8],
    needed: &mut usize,
) -> Result<(), Fault>
    ensures { AsksIn (range_query first_block blocks) (status_of result) chain.now
        (buffer room.old needed.old) (buffer room.new needed.new) }
{
    let encoded = ask_range(alloc, chain, first_block, blocks);
    write_encoded(encoded, room, needed)
}

/// The `query_channel_range` that asks a peer for the ids and timestamps of the channels of some blocks (BOLT 7, "Query
/// Messages").
#[unsafe(no_mangle)]
pub extern "C" fn lgm_ask_range(
    alloc: Global,
    map: &mut LgmMap,
    first_block: u32,
    blocks: u32,
    query: &mut [u8],
    needed: &mut usize,
) -> u32
    ensures same { map.new.value ≡ map.old.value }
    ensures query { Asks (range_query first_block blocks) result map.old.value
        (buffer query.old needed.old) (buffer query.new needed.new) }
{
    with_held!(
        alloc,
        map,
        |state| status(&write_range(alloc, state.chain(), first_block, blocks, query, needed))
    )
}

fn write_filter(
    alloc: Global,
    chain: &ChainHash,
    first: u32,
    seconds: u32,
    room: &mut [u8],
    needed: &mut usize,
) -> Result<(), Fault>
    ensures { AsksIn (filter_message first seconds) (status_of result) chain.now
        (buffer room.old needed.old) (buffer room.new needed.new) }
{
    let encoded = ask_filter(alloc, chain, first, seconds);
    write_encoded(encoded, room, needed)
}

/// The `gossip_timestamp_filter` that asks a peer for gossip with timestamps from `first` on, for so many seconds (BOLT 7, "The
/// gossip_timestamp_filter Message").
#[unsafe(no_mangle)]
pub extern "C" fn lgm_ask_filter(
    alloc: Global,
    map: &mut LgmMap,
    first: u32,
    seconds: u32,
    filter: &mut [u8],
    needed: &mut usize,
) -> u32
    ensures same { map.new.value ≡ map.old.value }
    ensures filter { Asks (filter_message first seconds) result map.old.value
        (buffer filter.old needed.old) (buffer filter.new needed.new) }
{
    with_held!(
        alloc,
        map,
        |state| status(&write_filter(alloc, state.chain(), first, seconds, filter, needed))
    )
}

fn lacking_given(it: &LgmLacking) -> Lacking
    ensures { result ≡ lacking_given it.now }
{
    Lacking {
        scid: Scid::from_u64(it.scid),
        flags: it.flags,
        times: Timestamps {
            node_1: it.timestamp_1,
            node_2: it.timestamp_2,
        },
    }
}

fn write_ids(
    alloc: Global,
    chain: &ChainHash,
    lacking: &[LgmLacking],
    room: &mut [u8],
    needed: &mut usize,
) -> Result<(), Fault>
    ensures { AsksIn (ids_query lacking.now) (status_of result) chain.now
        (buffer room.old needed.old) (buffer room.new needed.new) }
{
    let given = all_given(alloc, lacking, lacking_given)?;
    let encoded = ask_ids(alloc, chain, &given);
    write_encoded(encoded, room, needed)
}

/// The `query_short_channel_ids` that asks a peer for what is lacking of the first of these channels, at most 7,000 (BOLT 7,
/// "Query Messages").
#[unsafe(no_mangle)]
pub extern "C" fn lgm_ask_ids(
    alloc: Global,
    map: &mut LgmMap,
    lacking: &[LgmLacking],
    query: &mut [u8],
    needed: &mut usize,
) -> u32
    ensures same { map.new.value ≡ map.old.value }
    ensures query { Asks (ids_query lacking.now) result map.old.value
        (buffer query.old needed.old) (buffer query.new needed.new) }
{
    with_held!(
        alloc,
        map,
        |state| status(&write_ids(alloc, state.chain(), lacking, query, needed))
    )
}

fn c_lacking(it: &Lacking) -> LgmLacking
    ensures { result ≡ c_lacking it.now }
{
    LgmLacking {
        scid: it.scid.to_u64(),
        timestamp_1: it.times.node_1,
        timestamp_2: it.times.node_2,
        flags: it.flags,
    }
}

/// Writes what a map lacks of the channels in a reply, or how many there are alone.
fn write_lacking(
    alloc: Global,
    map: &Map,
    reply: &RangeReply,
    room: &mut [LgmLacking],
    needed: &mut usize,
) -> Result<(), Fault>
    ensures { MayList (lacking_told map.now reply.now) (status_of result)
        (channels room.old needed.old) (channels room.new needed.new) }
{
    let found = lacking_of(alloc, map, reply)?;
    *needed = found.len();
    if room.len() < found.len() {
        return Err(Fault::Room);
    }
    map_in_front(&found, room, c_lacking);
    Ok(())
}

/// The same of the reply that the bytes encode.
fn tell_lacking(
    alloc: Global,
    chain: &ChainHash,
    map: &Map,
    bytes: &[u8],
    room: &mut [LgmLacking],
    needed: &mut usize,
) -> u32
    ensures { TellsLacking bytes.now (lacking_answer bytes.now chain.now map.now) result
        (channels room.old needed.old) (channels room.new needed.new) }
{
    match read_reply(alloc, chain, bytes) {
        Ok(reply) => status(&write_lacking(alloc, map, &reply, room, needed)),
        Err(fault) => Fault::from(fault).number(),
    }
}

/// What the map lacks of the channels in a peer's `reply_channel_range`, by ascending id.
#[unsafe(no_mangle)]
pub extern "C" fn lgm_lacking(
    alloc: Global,
    map: &mut LgmMap,
    reply: &[u8],
    lacking: &mut [LgmLacking],
    needed: &mut usize,
) -> u32
    ensures same { map.new.value ≡ map.old.value }
    ensures lacking { Lacks reply.now result map.old.value
        (channels lacking.old needed.old) (channels lacking.new needed.new) }
{
    with_held!(
        alloc,
        map,
        |state| tell_lacking(alloc, state.chain(), state.map(), reply, lacking, needed)
    )
}

/// Moves the block up to which a range is covered by the reply that the bytes encode.
fn tell_covered(alloc: Global, chain: &ChainHash, bytes: &[u8], next: &mut u64) -> u32
    ensures { TellsCovered bytes.now (covered_answer bytes.now chain.now next.old) result next.old next.new }
{
    match read_reply(alloc, chain, bytes) {
        Ok(reply) => {
            *next = covered_by(chain, *next, &reply);
            0
        }
        Err(fault) => Fault::from(fault).number(),
    }
}

/// Moves the block up to which a range is covered, exclusive, by a peer's `reply_channel_range`.
#[unsafe(no_mangle)]
pub extern "C" fn lgm_covered(alloc: Global, map: &mut LgmMap, reply: &[u8], next: &mut u64) -> u32
    ensures same { map.new.value ≡ map.old.value }
    ensures covered { Covers reply.now result map.old.value next.old next.new }
{
    with_held!(
        alloc,
        map,
        |state| tell_covered(alloc, state.chain(), reply, next)
    )
}
