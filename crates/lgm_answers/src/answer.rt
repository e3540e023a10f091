//! Answers to lines.

ghost use Rattle.std.specs.Prelude.{◌≡◌, OnOk};
ghost use Rattle.lgm_script.specs.Output.{told_by, Writes};
ghost use Rattle.lgm_answers.specs.Answer.{answer_text, outcome_word};
ghost use Rattle.lgm_answers.specs.Setting.{filters_by};

use crate::filters::{Filters, PeerFilter};
use crate::route::send_found;
use crate::send::{send_backlog, send_range, send_replies};
use lgm_check::Refusal;
use lgm_gossip::{ChainHash, RangeQuery};
use lgm_query::{Replies, RequestFault};
use lgm_route::{Route, RouteFault};
use lgm_script::{Line, Output, SendFault, Sink};
use lgm_store::Map;
use std::alloc::Global;

/// What is found for a line that requests something of a map, before the line's turn. It borrows messages from the map.
/// The replies to a range and a backlog may be the whole map, so they are made when they are written.
#[derive(Drop)]
pub enum Answer<'a> {
    /// The line isn't a form of the grammar.
    Bad,
    /// The message isn't accepted as a query or filter.
    Refused(RequestFault),
    /// The messages of the reply to a query of ids.
    Replies(Replies<'a>),
    /// A query of a range.
    Range(RangeQuery),
    /// The filter of a peer, which gets what passes it.
    Filter(PeerFilter),
    /// The route of a payment with this secret, or why there is none.
    Route([u8; 32], Result<Route, RouteFault>),
}

impl Answer<'_> {
    /// Writes the answer to the line with this number, from 1, on a map of the chain, and sets the filter of a peer.
    pub fn send<W: Sink>(
        &self,
        alloc: Global,
        chain: &ChainHash,
        map: &Map,
        number: u64,
        filters: &mut Filters,
        output: &mut Output<'_, W>,
    ) -> Result<(), SendFault>
        ensures filters { OnOk result (filters.new ≡ filters_by filters.old self.now) }
        ensures written { Writes (told_by W.seen output.old) (told_by W.seen output.new)
            (answer_text chain.now map.now number self.now) result }
    {
        match self {
            Answer::Bad => output.send(number, &Line::Word("bad")),
            Answer::Refused(fault) => output.send(number, &Line::Word(fault.word())),
            Answer::Replies(replies) => send_replies(alloc, number, replies, output),
            Answer::Range(query) => send_range(alloc, number, chain, map, query, output),
            Answer::Filter(own) => {
                filters.set(*own)?;
                send_backlog(alloc, number, own, map, output)
            }
            Answer::Route(secret, found) => send_found(alloc, number, secret, found, output),
        }
    }
}

/// The word of an item's outcome: that it was accepted, or why it was refused.
pub fn outcome_word(refusal: Option<Refusal>) -> &'static str
    ensures { result.now ≡ outcome_word refusal }
{
    match refusal {
        None => "accepted",
        Some(refusal) => refusal.word(),
    }
}
