//! Queries and filters of peers, and the messages that answer them.

ghost use Rattle.std.specs.Prelude.{◌≡◌, IfSome};
ghost use Rattle.lgm_query.specs.Backlog.{news};
ghost use Rattle.lgm_query.specs.Requests.{replies_to};
ghost use Rattle.lgm_c.specs.Asking.{query_answer, backlog_answer, news_answer, TellsRoom};
ghost use Rattle.lgm_c.specs.Opening.{MovesMark};
ghost use Rattle.lgm_c.specs.Published.{both_open};
ghost use Rattle.lgm_c.specs.Status.{status_of};
ghost use Rattle.lgm_c.specs.Writing.{all_framed, Answers, WritesAnswer, buffer};
ghost use Rattle.lgm_c.specs.inner.Framing.{MayWrite};

use crate::chain_map::ChainMap;
use crate::fault::{Fault, status};
use crate::frames::{write_backlog, write_replies};
use crate::handle::{Handle, with_held};
use crate::map_handle::LgmMap;
use lgm_gossip::ChainHash;
use lgm_query::{Filter, Query, news, read_filter, read_query};
use lgm_store::Map;
use std::alloc::Global;

/// Writes the replies to a query, each after its length, or their length alone.
fn write_query(
    alloc: Global,
    chain: &ChainHash,
    map: &Map,
    query: &Query,
    room: &mut [u8],
    needed: &mut usize,
) -> Result<(), Fault>
    ensures { MayWrite (all_framed (replies_to chain.now map.now query.now)) (status_of result)
        (buffer room.old needed.old) (buffer room.new needed.new) }
{
    let replies = query.answer(alloc, chain, map)?;
    write_replies(alloc, replies.as_slice(), room, needed)
}

/// Answers the query that the bytes encode.
fn answer_query(
    alloc: Global,
    chain: &ChainHash,
    map: &Map,
    bytes: &[u8],
    room: &mut [u8],
    needed: &mut usize,
) -> u32
    ensures { WritesAnswer bytes.now (query_answer bytes.now chain.now map.now) result
        (buffer room.old needed.old) (buffer room.new needed.new) }
{
    match read_query(alloc, bytes) {
        Ok(query) => status(&write_query(alloc, chain, map, &query, room, needed)),
        Err(fault) => Fault::from(fault).number(),
    }
}

/// Answers the filter that the bytes encode with what passes of a map.
fn answer_filter(
    alloc: Global,
    chain: &ChainHash,
    map: &Map,
    bytes: &[u8],
    room: &mut [u8],
    needed: &mut usize,
) -> u32
    ensures backlog { WritesAnswer bytes.now (backlog_answer bytes.now chain.now map.now) result
        (buffer room.old needed.old) (buffer room.new needed.new) }
    ensures cramped { TellsRoom bytes.now chain.now map.now room.old result }
{
    match read_filter(alloc, chain, bytes) {
        Ok(filter) => status(&write_backlog(alloc, map, &filter, room, needed)),
        Err(fault) => Fault::from(fault).number(),
    }
}

/// Answers the filter that the bytes encode with what has come to pass since the mark.
fn answer_news(
    alloc: Global,
    inner: &mut ChainMap,
    bytes: &[u8],
    room: &mut [u8],
    needed: &mut usize,
) -> u32
    ensures same { inner.new ≡ inner.old }
    ensures news { WritesAnswer bytes.now (news_answer bytes.now inner.old.chain inner.old.marked inner.old.rows) result
        (buffer room.old needed.old) (buffer room.new needed.new) }
{
    match read_filter(alloc, inner.chain(), bytes) {
        Ok(filter) => status(&inner.news(alloc, &filter, room, needed)),
        Err(fault) => Fault::from(fault).number(),
    }
}

/// The replies to a peer's query of channels or of a range of blocks (BOLT 7, "Query Messages").
#[unsafe(no_mangle)]
pub extern "C" fn lgm_query(
    alloc: Global,
    map: &mut LgmMap,
    query: &[u8],
    replies: &mut [u8],
    needed: &mut usize,
) -> u32
    ensures same { map.new.value ≡ map.old.value }
    ensures replies { Answers query.now map.old.value
        (λ state. query_answer query.now state.chain state.rows) result
        (buffer replies.old needed.old) (buffer replies.new needed.new) }
{
    with_held!(
        alloc,
        map,
        |state| answer_query(alloc, state.chain(), state.map(), query, replies, needed)
    )
}

/// The messages of the map that pass a peer's filter (BOLT 7, "The gossip_timestamp_filter Message").
#[unsafe(no_mangle)]
pub extern "C" fn lgm_filter(
    alloc: Global,
    map: &mut LgmMap,
    filter: &[u8],
    messages: &mut [u8],
    needed: &mut usize,
) -> u32
    ensures same { map.new.value ≡ map.old.value }
    ensures backlog { Answers filter.now map.old.value
        (λ state. backlog_answer filter.now state.chain state.rows) result
        (buffer messages.old needed.old) (buffer messages.new needed.new) }
    ensures cramped { IfSome map.old.value (λ state. TellsRoom filter.now state.chain state.rows messages.old result) }
{
    with_held!(
        alloc,
        map,
        |state| answer_filter(alloc, state.chain(), state.map(), filter, messages, needed)
    )
}

/// The messages that pass a peer's filter now and didn't at the mark. Before the first mark, and in a published map, all that
/// pass.
#[unsafe(no_mangle)]
pub extern "C" fn lgm_news(
    alloc: Global,
    map: &mut LgmMap,
    filter: &[u8],
    messages: &mut [u8],
    needed: &mut usize,
) -> u32
    ensures same { map.new.value ≡ map.old.value }
    ensures news { Answers filter.now map.old.value
        (λ state. news_answer filter.now state.chain state.marked state.rows) result
        (buffer messages.old needed.old) (buffer messages.new needed.new) }
{
    with_held!(
        alloc,
        map,
        |state| answer_news(alloc, &mut state, filter, messages, needed)
    )
}

/// Writes the news between two maps, each message after its length, or their length alone.
fn write_between(
    alloc: Global,
    before: &Map,
    after: &Map,
    filter: &Filter,
    room: &mut [u8],
    needed: &mut usize,
) -> Result<(), Fault>
    ensures { MayWrite (all_framed (news before.now after.now filter.now)) (status_of result)
        (buffer room.old needed.old) (buffer room.new needed.new) }
{
    let news = news(alloc, before, after, filter)?;
    write_replies(alloc, news.as_slice(), room, needed)
}

/// Answers the filter that the bytes encode with what passes in a map and didn't in an earlier one.
fn answer_between(
    alloc: Global,
    before: &ChainMap,
    after: &ChainMap,
    bytes: &[u8],
    room: &mut [u8],
    needed: &mut usize,
) -> u32
    ensures { WritesAnswer bytes.now (news_answer bytes.now after.now.chain before.now.rows after.now.rows) result
        (buffer room.old needed.old) (buffer room.new needed.new) }
{
    match read_filter(alloc, after.chain(), bytes) {
        Ok(filter) => status(&write_between(
            alloc,
            before.map(),
            after.map(),
            &filter,
            room,
            needed,
        )),
        Err(fault) => Fault::from(fault).number(),
    }
}

/// The same with what a handle has now.
fn answer_behind(
    alloc: Global,
    before: &ChainMap,
    after: &mut LgmMap,
    bytes: &[u8],
    room: &mut [u8],
    needed: &mut usize,
) -> u32
    ensures same { after.new.value ≡ after.old.value }
    ensures news { Answers bytes.now after.old.value
        (λ state. news_answer bytes.now state.chain before.now.rows state.rows) result
        (buffer room.old needed.old) (buffer room.new needed.new) }
{
    with_held!(
        alloc,
        after,
        |state| answer_between(alloc, before, &state, bytes, room, needed)
    )
}

/// The messages that pass a peer's filter in a map and didn't in an earlier one. The filter is one of the chain of the later
/// map.
#[unsafe(no_mangle)]
pub extern "C" fn lgm_news_between(
    alloc: Global,
    before: &mut LgmMap,
    after: &mut LgmMap,
    filter: &[u8],
    messages: &mut [u8],
    needed: &mut usize,
) -> u32
    ensures same { after.new.value ≡ after.old.value }
    ensures same_before { before.new.value ≡ before.old.value }
    ensures news { Answers filter.now (both_open before.old.value after.old.value)
        (λ both. news_answer filter.now both.1.chain both.0.rows both.1.rows) result
        (buffer messages.old needed.old) (buffer messages.new needed.new) }
{
    with_held!(
        alloc,
        before,
        |state| answer_behind(alloc, &state, after, filter, messages, needed)
    )
}

/// Moves the mark to the map as it is.
#[unsafe(no_mangle)]
pub extern "C" fn lgm_mark(alloc: Global, map: &mut LgmMap) -> u32
    ensures { MovesMark result map.old.value map.new.value }
{
    with_held!(alloc, map, |state| status(&state.renew_mark()))
}
