//! Replies to queries by ids.

ghost use Rattle.std.specs.Prelude.{◌≡◌, ◌<◌, length, slice_index, IfOk};
ghost use Rattle.lgm_query.specs.IdsReply.{flags_of, messages_asked_for, end_bytes, ids_reply};

use crate::range_reply::encoded;
use crate::reply::{Replies, ReplyMessage};
use crate::reply_builder::ReplyBuilder;
use lgm_gossip::{Bytes, ChainHash, IdsEnd, IdsQuery, Message};
use lgm_store::{Map, ROWS_TOGETHER};
use std::alloc::{AllocError, Global};

/// The flags that select all messages of a channel.
const ALL: u64 = 0b11111;

/// The reply to a `query_short_channel_ids` on a map of `chain`: the messages about the channels, in the order of the
/// query, and then `reply_short_channel_ids_end` (BOLT 7, "The query_short_channel_ids/reply_short_channel_ids_end
/// Messages").
///
/// The flags of an id select among its messages: bit 0 the channel announcement, bits 1 and 2 the updates by node 1 and
/// node 2, bits 3 and 4 the announcements of node 1 and node 2. Other bits select nothing. Without flags all five are
/// selected. A repeated id is answered again, but a node announcement is sent only at its first place. A query of
/// another chain gets the end message alone, with `full_information` 0.
///
/// Each id takes time logarithmic in the map. References to five messages for each id, and the point of each node sent,
/// are allocated, whatever the messages' lengths.
pub fn answer_ids<'a>(
    alloc: Global,
    chain: &ChainHash,
    map: &'a Map,
    query: &IdsQuery,
) -> Result<Replies<'a>, AllocError>
    ensures { IfOk result (λ replies. replies ≡ ids_reply chain.now map.now query.now) }
{
    let is_own_chain = query.chain_hash == *chain;
    let mut messages = if is_own_chain {
        stored_messages(alloc, map, query)?
    } else {
        Vec::new(alloc)
    };
    messages.push(ReplyMessage::owned(end(alloc, query, u8::from(is_own_chain))?))?;
    Ok(Replies::from_vec(messages))
}

/// The messages about the channels of the query.
fn stored_messages<'a>(
    alloc: Global,
    map: &'a Map,
    query: &IdsQuery,
) -> Result<Vec<ReplyMessage<'a>>, AllocError>
    ensures { IfOk result (λ stored. stored.items ≡ messages_asked_for map.now query.now) }
{
    let channels = query.ids.as_slice().len();
    let mut sending = ReplyBuilder::with_room(alloc, channels, map.seed())?;
    for (place, scid) in query.ids.as_slice().iter().enumerate() {
        if place % ROWS_TOGETHER == 0 {
            read_ahead(map, query, place);
        }
        sending.send_chosen(map, *scid, flags_at(query, place))?;
    }
    Ok(sending.into_messages())
}

/// Reads the rows of the next channels, from this place on, so that the processor's cache has them.
fn read_ahead(map: &Map, query: &IdsQuery, place: usize) {
    let ids = query.ids.as_slice();
    let (_, next) = ids.split_at(place.min(ids.len()));
    map.prefetch_rows(next);
}

/// The flags of the id at an index of the query.
fn flags_at(query: &IdsQuery, place: usize) -> u64
    requires { place < length query.now.ids }
    ensures { result ≡ slice_index (flags_of query.now) place }
{
    match &query.flags {
        None => ALL,
        Some(flags) => flags.as_slice()[place],
    }
}

/// The last message of the reply.
fn end(alloc: Global, query: &IdsQuery, full_information: u8) -> Result<Bytes, AllocError>
    ensures { IfOk result (λ bytes. bytes ≡ end_bytes query.now full_information) }
{
    // With this the message isn't too long.
    let chain: &[u8] = &query.chain_hash.0;
    prove!(chain.len() == 32);
    let end = IdsEnd {
        chain_hash: query.chain_hash,
        full_information,
    };
    encoded(alloc, &Message::IdsEnd(end))
}
