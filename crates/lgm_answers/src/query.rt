//! Answers to queries and filters.

ghost use Rattle.std.specs.Prelude.{◌≡◌, ℕ, List, IfOk};
ghost use Rattle.lgm_store.specs.Rows.{Rows};
ghost use Rattle.lgm_query.specs.Requests.{filter_read, query_answer};
ghost use Rattle.lgm_answers.specs.Answer.{answer_text, filter_text, query_text};
ghost use Rattle.lgm_answers.specs.Filters.{filters_with};
ghost use Rattle.lgm_answers.specs.Setting.{filters_by};
ghost use Rattle.lgm_answers.specs.declared.filters.PeerFilter.{PeerFilter};

use crate::answer::Answer;
use crate::filters::PeerFilter;
use lgm_check::Refusal;
use lgm_gossip::ChainHash;
use lgm_query::{Query, RequestFault, answer_ids, read_filter, read_query};
use lgm_store::Map;
use std::alloc::{AllocError, Global};

/// The answer to a query of these bytes, on a map of the chain.
pub fn answer_query<'a>(
    alloc: Global,
    chain: &ChainHash,
    map: &'a Map,
    bytes: &[u8],
) -> Result<Answer<'a>, AllocError>
    ensures text { IfOk result (λ answer. (n : ℕ) → answer_text chain.now map.now n answer
        ≡ query_text n (query_answer chain.now map.now bytes.now)) }
    ensures filters { IfOk result
        (λ answer. (filters : List PeerFilter) → filters_by filters answer ≡ filters) }
{
    match read_query(alloc, bytes) {
        Ok(Query::Ids(query)) => Ok(Answer::Replies(answer_ids(alloc, chain, map, &query)?)),
        Ok(Query::Range(query)) => Ok(Answer::Range(query)),
        Err(RequestFault::Refused(Refusal::NoMemory)) => Err(AllocError),
        Err(fault) => Ok(Answer::Refused(fault)),
    }
}

/// The answer to a peer's filter of these bytes, which sets it, on any map of the chain.
pub fn answer_filter(
    alloc: Global,
    chain: &ChainHash,
    peer: u16,
    bytes: &[u8],
) -> Result<Answer<'static>, AllocError>
    ensures text { IfOk result (λ answer. (rows : Rows) (n : ℕ) → answer_text chain.now rows n answer
        ≡ filter_text n peer rows (filter_read chain.now bytes.now)) }
    ensures filters { IfOk result (λ answer. (filters : List PeerFilter)
        → filters_by filters answer ≡ filters_with filters peer (filter_read chain.now bytes.now)) }
{
    match read_filter(alloc, chain, bytes) {
        Ok(filter) => Ok(Answer::Filter(PeerFilter { peer, filter })),
        Err(RequestFault::Refused(Refusal::NoMemory)) => Err(AllocError),
        Err(fault) => Ok(Answer::Refused(fault)),
    }
}
