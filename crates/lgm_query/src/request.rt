//! What a peer requests: queries and filters, read from their messages.

ghost use Rattle.std.specs.Prelude.{◌≡◌, IfOk, Ok};
ghost use Rattle.lgm_gossip.specs.Memory.{GivesIf, TakesMemory};
ghost use Rattle.lgm_check.specs.Refusal.{refusal_of};
ghost use Rattle.lgm_query.specs.Requests.{query_in, query_read, replies_to};
ghost use Rattle.lgm_query.specs.Requests.{filter_in, filter_read, request_word};

use crate::filter::Filter;
use crate::ids_reply::answer_ids;
use crate::range_reply::answer_range;
use crate::reply::Replies;
use lgm_check::Refusal;
use lgm_gossip::{ChainHash, DecodeFault, IdsQuery, Message, RangeQuery, decode};
use lgm_store::Map;
use std::alloc::{AllocError, Global};
use thiserror::Error;

/// A query of a peer (BOLT 7, "Query Messages").
#[derive(Debug, Drop)]
pub enum Query {
    /// `query_short_channel_ids`: the messages about these channels.
    Ids(IdsQuery),
    /// `query_channel_range`: the ids of the channels in a range of blocks.
    Range(RangeQuery),
}

/// Why a message isn't accepted as a query or as a filter.
#[derive(Clone, Copy, Debug, PartialEq, Eq, Error)]
pub enum RequestFault {
    /// The bytes aren't a message, it is a filter of another chain, or memory ran out.
    #[error("{0}")]
    Refused(Refusal),
    /// It is neither of the two queries.
    #[error("not-query")]
    NotQuery,
    /// It isn't a filter.
    #[error("not-filter")]
    NotFilter,
}

impl RequestFault {
    /// Its word, as answers are written; empty for out of memory.
    pub fn word(self) -> &'static str
        ensures { result.now ≡ request_word self }
    {
        match self {
            RequestFault::Refused(refusal) => refusal.word(),
            RequestFault::NotQuery => "not-query",
            RequestFault::NotFilter => "not-filter",
        }
    }
}

impl From<DecodeFault> for RequestFault {
    ghost use Rattle.lgm_query.specs.declared.request.RequestFault.TheVariants.{Refused};

    ghost from_gives = { λ fault e. e ≡ Refused (refusal_of fault) };

    fn from(fault: DecodeFault) -> RequestFault {
        RequestFault::Refused(Refusal::from(fault))
    }
}

fn query_in(message: Message) -> Result<Query, RequestFault>
    ensures { result ≡ query_in (Ok message.entry) }
{
    match message {
        Message::IdsQuery(query) => Ok(Query::Ids(query)),
        Message::RangeQuery(query) => Ok(Query::Range(query)),
        _ => Err(RequestFault::NotQuery),
    }
}

/// The query that the bytes of a message encode, or why they don't.
///
/// `Refused` with `NoMemory` says nothing of the bytes: memory ran out while they were decoded.
pub fn read_query(alloc: Global, bytes: &[u8]) -> Result<Query, RequestFault>
    ensures { GivesIf (TakesMemory bytes.now) (RequestFault.Refused Refusal.NoMemory) (λ query. query)
        result (query_read bytes.now) }
{
    match decode(alloc, bytes) {
        Ok(message) => query_in(message),
        Err(fault) => Err(RequestFault::from(fault)),
    }
}

fn filter_in(chain: &ChainHash, message: &Message) -> Result<Filter, RequestFault>
    ensures { result ≡ filter_in chain.now (Ok message.now) }
{
    let Message::FilterMsg(filter) = message else {
        return Err(RequestFault::NotFilter);
    };
    if filter.chain_hash != *chain {
        return Err(RequestFault::Refused(Refusal::Chain));
    }
    Ok(Filter {
        first: filter.first_timestamp,
        range: filter.timestamp_range,
    })
}

/// The filter that the bytes of a message for this chain encode, or why they don't (BOLT 7, "The
/// `gossip_timestamp_filter` Message").
///
/// `Refused` with `NoMemory` says nothing of the bytes: memory ran out while they were decoded.
pub fn read_filter(alloc: Global, chain: &ChainHash, bytes: &[u8]) -> Result<Filter, RequestFault>
    ensures { GivesIf (TakesMemory bytes.now) (RequestFault.Refused Refusal.NoMemory) (λ filter. filter)
        result (filter_read chain.now bytes.now) }
{
    match decode(alloc, bytes) {
        Ok(message) => filter_in(chain, &message),
        Err(fault) => Err(RequestFault::from(fault)),
    }
}

impl Query {
    /// The replies to a query from a map of a chain.
    pub fn answer<'a>(
        &self,
        alloc: Global,
        chain: &ChainHash,
        map: &'a Map,
    ) -> Result<Replies<'a>, AllocError>
        ensures { IfOk result (λ replies. replies ≡ replies_to chain.now map.now self.now) }
    {
        match self {
            Query::Ids(query) => answer_ids(alloc, chain, map, query),
            Query::Range(query) => answer_range(alloc, chain, map, query),
        }
    }
}
