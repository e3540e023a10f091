//! Replies to queries of block ranges.

ghost use Rattle.std.specs.Prelude.{◌≡◌, ◌*◌, ◌<◌, ◌≤◌, true, length, IfOk, if◌then◌else◌, ◌+◌, ◌-◌, ◌^◌};
ghost use Rattle.lgm_store.specs.Rows.{Rows};
ghost use Rattle.lgm_query.specs.RangeReply.{ids_asked_for, AreInRange, reply_count, piece_at};
ghost use Rattle.lgm_query.specs.RangeReply.{timestamps_beside, all_timestamps_of, asks_for_timestamps, reply_bytes, range_reply};
ghost use Rattle.lgm_query.specs.RangeReply.{range_end, is_last, ids_at, reply_end, reply_start};
ghost use Rattle.lgm_store.specs.Reading.{block_of, ids_between_of};
ghost use Rattle.lgm_gossip.specs.Spelling.{spelling};

use crate::reply::{Replies, ReplyMessage};
use lgm_gossip::{
    Bytes, ChainHash, EncodeFault, Message, RangeQuery, RangeReply, Scid, Scids, TimestampList,
    Timestamps, encode,
};
use lgm_store::Map;
use std::alloc::{AllocError, Global};

/// The replies to a `query_channel_range` on a map of `chain`, each a `reply_channel_range` (BOLT 7, "The
/// query_channel_range and reply_channel_range Messages").
///
/// They have the ids of the channels funded in the range, ascending, 4,000 in each reply but the last. A range of no
/// blocks counts as one block, and may end beyond the greatest block height. The first reply starts where the range
/// does, and each later one where the previous one ends, or one block earlier if its first id is in that block: so no
/// block is skipped. A reply ends just after the block of its last id; the last one ends where the range ends, with
/// `sync_complete` 1. Bit 0 of the options requests the timestamps of the updates; checksums are never sent. A query of
/// another chain gets one reply over the range, without ids.
///
/// Time is logarithmic in the map and linear in the channels of the range; memory is linear in these.
pub fn answer_range<'a>(
    alloc: Global,
    chain: &ChainHash,
    map: &'a Map,
    query: &RangeQuery,
) -> Result<Replies<'a>, AllocError>
    ensures { IfOk result (λ replies. replies ≡ range_reply chain.now map.now query.now) }
{
    let listing = listed(alloc, chain, map, query)?;
    let (ids, times) = (listing.ids.as_slice(), listing.times.as_slice());
    let count = reply_count(ids);
    let mut replies = Vec::with_capacity(alloc, count)?;
    for place in 0..count {
        replies.push(ReplyMessage::owned(reply(alloc, query, ids, times, place)?))?;
    }
    Ok(Replies::from_vec(replies))
}

/// What the replies to a query list.
#[derive(Drop)]
struct Listing {
    /// The ids in the range, ascending.
    ids: Scids,
    /// The timestamps beside them, if the query requests these.
    times: Vec<Timestamps>,
}

/// What the replies to a query list, on a map of `chain`.
fn listed(
    alloc: Global,
    chain: &ChainHash,
    map: &Map,
    query: &RangeQuery,
) -> Result<Listing, AllocError>
    ensures ids { IfOk result
        (λ listing. listing.ids ≡ ids_asked_for chain.now map.now query.now) }
    ensures times { IfOk result (λ listing. listing.times.items
        ≡ timestamps_beside map.now query.now (ids_asked_for chain.now map.now query.now)) }
{
    if query.chain_hash != *chain {
        return Ok(Listing {
            ids: Scids::from_vec(Vec::new(alloc)),
            times: Vec::new(alloc),
        });
    }
    if asks_for_timestamps(query) {
        return with_timestamps(alloc, map, query);
    }
    let ids = map.ids_between(alloc, u64::from(query.first_blocknum), range_end(query))?;
    let times = Vec::new(alloc);
    Ok(Listing { ids, times })
}

/// The ids in a query's range and the timestamps of their channels, in one traversal.
fn with_timestamps(alloc: Global, map: &Map, query: &RangeQuery) -> Result<Listing, AllocError>
    ensures ids { IfOk result (λ listing. listing.ids
        ≡ ids_between_of map.now.channels query.now.first_blocknum (range_end query.now)) }
    ensures times { IfOk result (λ listing. listing.times.items ≡ all_timestamps_of map.now
        (ids_between_of map.now.channels query.now.first_blocknum (range_end query.now))) }
{
    let (from, to) = (u64::from(query.first_blocknum), range_end(query));
    let room = map.capacity_between(from, to);
    let mut ids = Vec::with_capacity(alloc, room)?;
    let mut times = Vec::with_capacity(alloc, room)?;
    for stored in map.channels_between(from, to) {
        ids.push(stored.scid())?;
        times.push(stored.timestamps())?;
    }
    let ids = Scids::from_vec(ids);
    Ok(Listing { ids, times })
}

/// The reply at an index.
fn reply(
    alloc: Global,
    query: &RangeQuery,
    ids: &[Scid],
    times: &[Timestamps],
    place: usize,
) -> Result<Bytes, AllocError>
    requires place { place < reply_count ids.now }
    requires between { AreInRange query.now ids.now }
    requires times { asks_for_timestamps query.now ≡ true → length times.now ≡ length ids.now }
    ensures { (rows : Rows) → times.now ≡ timestamps_beside rows query.now ids.now
        → IfOk result (λ bytes. bytes ≡ reply_bytes rows query.now ids.now place) }
{
    // With this the reply isn't too long.
    let chain: &[u8] = &query.chain_hash.0;
    prove!(chain.len() == 32);
    let own = ids_at(ids, place);
    let message = RangeReply {
        chain_hash: query.chain_hash,
        first_blocknum: reply_start(query, ids, place),
        number_of_blocks: number_of_blocks(query, ids, place),
        sync_complete: u8::from(is_last(ids, place)),
        ids: Scids::from_vec(Vec::from_slice(alloc, own)?),
        timestamps: timestamps_at(alloc, query, times, place)?,
    };
    encoded(alloc, &Message::RangeReply(message))
}

/// The timestamps in the reply at an index, if the query requests them.
fn timestamps_at(
    alloc: Global,
    query: &RangeQuery,
    times: &[Timestamps],
    place: usize,
) -> Result<Option<TimestampList>, AllocError>
    requires { asks_for_timestamps query.now ≡ true → 4000 * place ≤ length times.now }
    ensures { IfOk result
        (λ pairs. pairs ≡ if asks_for_timestamps query.now then Some (piece_at times.now place) else None) }
{
    if !asks_for_timestamps(query) {
        return Ok(None);
    }
    let own = Vec::from_slice(alloc, piece_at(times, place))?;
    Ok(Some(TimestampList::from_vec(own)))
}

/// Whether bit 0 of the options is set.
fn asks_for_timestamps(query: &RangeQuery) -> bool
    ensures { result ≡ asks_for_timestamps query.now }
{
    query.options.unwrap_or(0) % 2 == 1
}

/// The maximum number of ids in a reply.
const MAX_IDS: usize = 4_000;

/// The end of a query's range, exclusive.
pub(crate) fn range_end(query: &RangeQuery) -> u64
    ensures value { result ≡ range_end query.now }
    ensures most { result < query.now.first_blocknum + 2 ^ 32 }
{
    u64::from(query.first_blocknum) + u64::from(query.number_of_blocks.max(1))
}

/// The number of replies for these ids.
pub(crate) fn reply_count(ids: &[Scid]) -> usize
    ensures { result ≡ reply_count ids.now }
{
    ids.len().div_ceil(MAX_IDS).max(1)
}

pub(crate) fn is_last(ids: &[Scid], place: usize) -> bool
    requires { place < reply_count ids.now }
    ensures { result ≡ is_last ids.now place }
{
    place + 1 == reply_count(ids)
}

/// The ids of the reply at an index.
pub(crate) fn ids_at(ids: &[Scid], place: usize) -> &[Scid]
    requires { place < reply_count ids.now }
    ensures { result.now ≡ ids_at ids.now place }
{
    piece_at(ids, place)
}

/// The part of a list over all ids that belongs to the reply at an index.
pub(crate) fn piece_at<T>(items: &[T], place: usize) -> &[T]
    requires { 4000 * place ≤ length items.now }
    ensures { result.now ≡ piece_at items.now place }
{
    let (_, rest) = items.split_at(place * MAX_IDS);
    &rest[..rest.len().min(MAX_IDS)]
}

/// The end of the reply at an index, a block height, exclusive.
fn reply_end(query: &RangeQuery, ids: &[Scid], place: usize) -> u64
    requires place { place < reply_count ids.now }
    requires between { AreInRange query.now ids.now }
    ensures value { result ≡ reply_end query.now ids.now place }
    ensures most { result < query.now.first_blocknum + 2 ^ 32 }
{
    let range_end = range_end(query);
    if is_last(ids, place) {
        return range_end;
    }
    u64::from(next_block(ids[place * MAX_IDS + MAX_IDS - 1]))
}

/// The first block of the reply at an index.
pub(crate) fn reply_start(query: &RangeQuery, ids: &[Scid], place: usize) -> u32
    requires { place < reply_count ids.now }
    ensures { result ≡ reply_start query.now ids.now place }
{
    if place == 0 {
        return query.first_blocknum;
    }
    let last_before = ids[place * MAX_IDS - 1];
    let first = ids[place * MAX_IDS];
    if first.block() == last_before.block() {
        first.block()
    } else {
        next_block(last_before)
    }
}

/// The number of blocks of the reply at an index.
pub(crate) fn number_of_blocks(query: &RangeQuery, ids: &[Scid], place: usize) -> u32
    requires place { place < reply_count ids.now }
    requires between { AreInRange query.now ids.now }
    ensures { result ≡ reply_end query.now ids.now place - reply_start query.now ids.now place }
{
    let start = u64::from(reply_start(query, ids, place));
    // If rows ascend, as those of every map do, no reply ends before it starts.
    reply_end(query, ids, place).saturating_sub(start) as u32
}

/// The block after that of a channel.
fn next_block(scid: Scid) -> u32
    ensures { result ≡ block_of scid + 1 }
{
    (scid.to_u64() >> 40) as u32 + 1
}

/// Encodes a message that isn't too long.
pub(crate) fn encoded(alloc: Global, message: &Message) -> Result<Bytes, AllocError>
    requires { length (spelling message.now) ≤ 65535 }
    ensures { IfOk result (λ bytes. bytes ≡ spelling message.now) }
{
    match encode(alloc, message) {
        Ok(bytes) => Ok(bytes),
        Err(EncodeFault::NoMemory) => Err(AllocError),
        Err(EncodeFault::TooLong) => unreachable!(),
    }
}
