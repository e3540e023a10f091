//! The messages that ask a peer.

ghost use Rattle.std.specs.Prelude.{◌≡◌, IfOk};
ghost use Rattle.std.specs.Prelude.{map, take};
ghost use Rattle.lgm_gossip.specs.Spelling.{spelling};
ghost use Rattle.lgm_gossip.specs.declared.message.Message.TheVariants as messages;
ghost use Rattle.lgm_sync.specs.Asking.{range_asked, ids_asked, filter_asked};

use crate::lacking::Lacking;
use lgm_gossip::{
    Bytes, ChainHash, EncodeFault, FilterMsg, IdsQuery, Message, QueryFlags, RangeQuery, Scids,
    encode,
};
use std::alloc::{AllocError, Global};

/// The most ids in one query: with one byte of flags for each, it fits a message of 65,535 bytes.
pub const MAX_IDS: usize = 7_000;

/// A `query_channel_range`, which asks for the ids of the channels of these blocks, and for the timestamps of their updates.
pub fn ask_range(
    alloc: Global,
    chain: &ChainHash,
    first_block: u32,
    blocks: u32,
) -> Result<Bytes, EncodeFault>
    ensures { IfOk result (λ bytes. bytes ≡ spelling (range_asked chain.now first_block blocks)) }
{
    let query = RangeQuery {
        chain_hash: *chain,
        first_blocknum: first_block,
        number_of_blocks: blocks,
        options: Some(1),
    };
    encode(alloc, &Message::RangeQuery(query))
}

/// A `query_short_channel_ids`, which asks for what is lacking of the first of these channels, at most [`MAX_IDS`].
pub fn ask_ids(alloc: Global, chain: &ChainHash, lacking: &[Lacking]) -> Result<Bytes, EncodeFault>
    ensures { IfOk result (λ bytes. bytes ≡ spelling (ids_asked chain.now (take 7000 lacking.now))) }
{
    let (ids, flags) = parts(alloc, first_of(lacking))?;
    let query = IdsQuery {
        chain_hash: *chain,
        ids,
        flags: Some(flags),
    };
    encode(alloc, &Message::IdsQuery(query))
}

/// The first of these channels, as many as a query has room for.
fn first_of(lacking: &[Lacking]) -> &[Lacking]
    ensures { result.now ≡ take 7000 lacking.now }
{
    if lacking.len() <= MAX_IDS {
        return lacking;
    }
    let (first, _) = lacking.split_at(MAX_IDS);
    first
}

/// The ids of channels, and the flags beside them.
fn parts(alloc: Global, lacking: &[Lacking]) -> Result<(Scids, QueryFlags), AllocError>
    ensures ids { IfOk result (λ parts. parts.0 ≡ map (λ it. it.scid) lacking.now) }
    ensures flags { IfOk result (λ parts. parts.1 ≡ map (λ it. it.flags) lacking.now) }
{
    let mut ids = Vec::with_capacity(alloc, lacking.len())?;
    let mut flags = Vec::with_capacity(alloc, lacking.len())?;
    for it in lacking {
        ids.push(it.scid)?;
        flags.push(u64::from(it.flags))?;
    }
    Ok((Scids::from_vec(ids), QueryFlags::from_vec(flags)))
}

/// A `gossip_timestamp_filter`, which asks for gossip with timestamps from `first` on, for so many seconds.
pub fn ask_filter(
    alloc: Global,
    chain: &ChainHash,
    first: u32,
    range: u32,
) -> Result<Bytes, EncodeFault>
    ensures { IfOk result (λ bytes. bytes ≡ spelling (filter_asked chain.now first range)) }
{
    let filter = FilterMsg {
        chain_hash: *chain,
        first_timestamp: first,
        timestamp_range: range,
    };
    encode(alloc, &Message::FilterMsg(filter))
}
