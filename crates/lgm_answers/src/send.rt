//! Writing messages, one per line.

ghost use Rattle.std.specs.Prelude.{ℕ, List, Ok};
ghost use Rattle.std.specs.Iterator.{IsFinite, AlwaysYields};
ghost use Rattle.std.specs.List.{flat_map};
ghost use Rattle.lgm_script.specs.Output.{told_by, Writes};
ghost use Rattle.lgm_script.specs.Text.{message_line};
ghost use Rattle.lgm_answers.specs.Answer.{query_text, range_text, filter_text, news_text, commit_text};

use crate::batch::Batch;
use crate::filters::{Filters, PeerFilter};
use lgm_gossip::{ChainHash, RangeQuery};
use lgm_query::{Backlog, MapDiff, Replies, answer_range};
use lgm_script::{Lead, Line, Output, SendFault, Sink};
use lgm_store::Map;
use std::alloc::Global;

/// Writes messages, one after the other, as the answer to a line or for a peer.
fn send_messages<'a, I: Iterator<Item = &'a [u8]> + Drop, W: Sink>(
    alloc: Global,
    number: u64,
    peer: Option<u16>,
    messages: I,
    output: &mut Output<'_, W>,
) -> Result<(), SendFault>
    requires can { I.can_next messages }
    requires ends { IsFinite (I.remaining messages) }
    ensures { (all : List (List ℕ)) → AlwaysYields I.next_gives (λ message. message.now) messages all
        → Writes (told_by W.seen output.old) (told_by W.seen output.new)
        (flat_map (message_line number peer) all) result }
{
    let lead = Lead::new(alloc, number, peer)?;
    let mut batch = Batch::new(alloc)?;
    for message in messages {
        batch.add(message, &lead, output)?;
    }
    batch.send(&lead, output)
}

/// Writes the messages of the reply to a query.
pub(crate) fn send_replies<W: Sink>(
    alloc: Global,
    number: u64,
    replies: &Replies<'_>,
    output: &mut Output<'_, W>,
) -> Result<(), SendFault>
    ensures { Writes (told_by W.seen output.old) (told_by W.seen output.new)
        (query_text number (Ok replies.now)) result }
{
    let messages = replies.as_slice().iter().map(|message| message.as_slice());
    send_messages(alloc, number, None, messages, output)
}

/// Makes the replies to a query of a range, and writes them.
pub(crate) fn send_range<W: Sink>(
    alloc: Global,
    number: u64,
    chain: &ChainHash,
    map: &Map,
    query: &RangeQuery,
    output: &mut Output<'_, W>,
) -> Result<(), SendFault>
    ensures { Writes (told_by W.seen output.old) (told_by W.seen output.new)
        (range_text number chain.now map.now query.now) result }
{
    let replies = answer_range(alloc, chain, map, query)?;
    send_replies(alloc, number, &replies, output)
}

/// Writes that a peer has a filter, and then what passes it of a map.
pub(crate) fn send_backlog<W: Sink>(
    alloc: Global,
    number: u64,
    own: &PeerFilter,
    map: &Map,
    output: &mut Output<'_, W>,
) -> Result<(), SendFault>
    ensures { Writes (told_by W.seen output.old) (told_by W.seen output.new)
        (filter_text number own.now.peer map.now (Ok own.now.filter)) result }
{
    output.send(number, &Line::Word("filter"))?;
    let messages = Backlog::of(map, &own.filter);
    send_messages(alloc, number, Some(own.peer), messages, output)
}

/// Writes the news of each peer with a filter, by ascending peer.
fn send_all_news<W: Sink>(
    alloc: Global,
    number: u64,
    filters: &Filters,
    map_diff: &MapDiff<'_>,
    output: &mut Output<'_, W>,
) -> Result<(), SendFault>
    ensures { Writes (told_by W.seen output.old) (told_by W.seen output.new)
        (flat_map (news_text number map_diff.now.before map_diff.now.after) filters.now)
        result }
{
    for (_, own) in filters.as_map() {
        let messages = map_diff.news(&own.filter);
        send_messages(alloc, number, Some(own.peer), messages, output)?;
    }
    Ok(())
}

/// Writes the number of accepted items, and then the news of each peer.
pub fn send_commit<W: Sink>(
    alloc: Global,
    number: u64,
    accepted: u64,
    filters: &Filters,
    map_diff: &MapDiff<'_>,
    output: &mut Output<'_, W>,
) -> Result<(), SendFault>
    ensures { Writes (told_by W.seen output.old) (told_by W.seen output.new)
        (commit_text number accepted map_diff.now.before map_diff.now.after filters.now)
        result }
{
    output.send(number, &Line::Commit(accepted))?;
    send_all_news(alloc, number, filters, map_diff, output)
}
