//! The differences between two maps.

ghost use Rattle.std.specs.Prelude.{◌≡◌, map, IfOk};
ghost use Rattle.std.specs.List.{flat_map};
ghost use Rattle.lgm_store.specs.Keys.{id_of, point_of};
ghost use Rattle.lgm_query.specs.declared.filter.Filter.{Filter as AnyFilter};
ghost use Rattle.lgm_query.specs.Backlog.{news};
ghost use Rattle.lgm_query.specs.KeyNews.{news_of_channel, news_of_node};
ghost use Rattle.lgm_query.specs.ComesOf.{ComesOf};
ghost use Rattle.lgm_query.specs.MapDiff.{TwoMaps};
ghost use Rattle.lgm_query.specs.inner.Pairs.{IsAskedFor, news_of_channel_pair, news_of_node_pair, news_of_pairs};

use crate::filter::Filter;
use crate::news_iter::News;
use crate::pairs::{ChannelPair, NodePair};
use crate::reply::{Replies, ReplyMessage};
use crate::touched_keys::TouchedKeys;
use lgm_gossip::{Point, Scid};
use lgm_store::Map;
use std::alloc::{AllocError, Global};
use std::collections::BTreeSet;
use std::marker::Model;

/// The differences between an earlier map and a later one: the rows of both for each channel and node that operations
/// touched. Contracts see the rows of the two maps.
///
/// Computed once, by comparing the messages of the two maps; then the news of each peer depend on timestamps alone.
#[derive(Drop)]
pub struct MapDiff<'a> {
    before: &'a Map,
    after: &'a Map,
    channels: Vec<ChannelPair<'a>>,
    nodes: Vec<NodePair<'a>>,
}

impl<'a> Model for MapDiff<'a> {
    ghost Value = { TwoMaps };

    ghost view = { λ d. record { before = d.before.now; after = d.after.now } };

    ghost invariant = { λ d. (f : AnyFilter)
        → news_of_pairs f d.channels.items d.nodes.items ≡ news d.before.now d.after.now f };
}

impl<'a> MapDiff<'a> {
    /// The differences from an earlier map to one made from it by operations that touched these keys.
    ///
    /// Time is logarithmic in the maps for each touched key, whose messages are read.
    pub fn between(
        alloc: Global,
        before: &'a Map,
        after: &'a Map,
        changes: &TouchedKeys,
    ) -> Result<MapDiff<'a>, AllocError>
        requires { ComesOf before.now after.now changes.now }
        ensures { IfOk result
            (λ map_diff. map_diff ≡ record { before = before.now; after = after.now }) }
    {
        before.rows_are_lawful();
        after.rows_are_lawful();
        before.bytes_encode_rows();
        after.bytes_encode_rows();
        Ok(MapDiff {
            before,
            after,
            channels: channel_pairs(alloc, before, after, &changes.channels)?,
            nodes: node_pairs(alloc, before, after, &changes.nodes)?,
        })
    }

    /// The differences from an earlier map to a later one, whatever led from one to the other.
    ///
    /// Time is that of the later map, with two searches for each of its rows, all of whose messages are read.
    pub fn of_maps(
        alloc: Global,
        before: &'a Map,
        after: &'a Map,
    ) -> Result<MapDiff<'a>, AllocError>
        ensures { IfOk result
            (λ map_diff. map_diff ≡ record { before = before.now; after = after.now }) }
    {
        before.rows_are_lawful();
        after.rows_are_lawful();
        before.bytes_encode_rows();
        after.bytes_encode_rows();
        Ok(MapDiff {
            before,
            after,
            channels: all_channel_pairs(alloc, before, after, None)?,
            nodes: all_node_pairs(alloc, before, after, None)?,
        })
    }

    /// Iterates over the [`news`](crate::news_iter) from the earlier map to the later one. Nothing is allocated, and only
    /// the timestamps of what was touched are looked at, or nothing if the filter's range is empty.
    pub fn news<'b>(&'b self, filter: &Filter) -> News<'b, 'a>
        ensures { result ≡ news self.now.before self.now.after filter.now }
    {
        News::of(filter, self.channels.as_slice(), self.nodes.as_slice())
    }
}

/// The rows of both maps for the channels that the later map has.
#[tactic(auto, using(crate::proofs::PairLaws::one_more_pair))]
fn channel_pairs<'a>(
    alloc: Global,
    before: &'a Map,
    after: &'a Map,
    scids: &BTreeSet<Scid>,
) -> Result<Vec<ChannelPair<'a>>, AllocError>
    ensures { IfOk result (λ pairs. (f : AnyFilter)
        → flat_map (news_of_channel_pair f) pairs.items
        ≡ flat_map (news_of_channel f before.now after.now) scids.now.keys) }
{
    let mut pairs = Vec::new(alloc);
    for scid in scids {
        if let Some(pair) = ChannelPair::at(before, after, *scid) {
            pairs.push(pair)?;
        }
    }
    Ok(pairs)
}

/// The rows of both maps for the nodes that the later map has.
fn node_pairs<'a>(
    alloc: Global,
    before: &'a Map,
    after: &'a Map,
    nodes: &BTreeSet<Point>,
) -> Result<Vec<NodePair<'a>>, AllocError>
    ensures { IfOk result (λ pairs. (f : AnyFilter)
        → flat_map (news_of_node_pair f) pairs.items
        ≡ flat_map (news_of_node f before.now after.now) nodes.now.keys) }
{
    let mut pairs = Vec::new(alloc);
    for node in nodes {
        if let Some(pair) = NodePair::at(before, after, node) {
            pairs.push(pair)?;
        }
    }
    Ok(pairs)
}

/// The rows of both maps for each channel of the later one; if only one filter is asked for, those of which something passes it.
#[tactic(auto, using(crate::proofs::PairLaws::one_more_pair))]
fn all_channel_pairs<'a>(
    alloc: Global,
    before: &'a Map,
    after: &'a Map,
    only: Option<Filter>,
) -> Result<Vec<ChannelPair<'a>>, AllocError>
    ensures { IfOk result (λ pairs. (f : AnyFilter) → IsAskedFor only f
        → flat_map (news_of_channel_pair f) pairs.items
        ≡ flat_map (news_of_channel f before.now after.now) (map id_of after.now.channels)) }
{
    let mut pairs = Vec::new(alloc);
    for stored in after.channels() {
        if let Some(pair) = ChannelPair::passing(before, after, stored.scid(), only) {
            pairs.push(pair)?;
        }
    }
    Ok(pairs)
}

/// The rows of both maps for each node of the later one; if only one filter is asked for, those of which something passes it.
fn all_node_pairs<'a>(
    alloc: Global,
    before: &'a Map,
    after: &'a Map,
    only: Option<Filter>,
) -> Result<Vec<NodePair<'a>>, AllocError>
    ensures { IfOk result (λ pairs. (f : AnyFilter) → IsAskedFor only f
        → flat_map (news_of_node_pair f) pairs.items
        ≡ flat_map (news_of_node f before.now after.now) (map point_of after.now.nodes)) }
{
    let mut pairs = Vec::new(alloc);
    for row in after.nodes() {
        if let Some(pair) = NodePair::passing(before, after, &row.node(), only) {
            pairs.push(pair)?;
        }
    }
    Ok(pairs)
}

/// The messages that pass a filter in a later map and didn't in an earlier one, in the order of [`backlog`](crate::backlog).
///
/// Messages are compared by their bytes. So a channel announcement is news once an update of the channel begins to
/// pass, and a message that was removed and added again between the two maps isn't.
///
/// Time is that of the later map, with two searches for each channel and node of which something passes, whose messages
/// are read.
pub fn news<'a>(
    alloc: Global,
    before: &'a Map,
    after: &'a Map,
    filter: &Filter,
) -> Result<Replies<'a>, AllocError>
    ensures { IfOk result (λ replies. replies ≡ news before.now after.now filter.now) }
{
    before.rows_are_lawful();
    after.rows_are_lawful();
    before.bytes_encode_rows();
    after.bytes_encode_rows();
    let channels = all_channel_pairs(alloc, before, after, Some(*filter))?;
    let nodes = all_node_pairs(alloc, before, after, Some(*filter))?;
    let mut messages = Vec::new(alloc);
    for message in News::of(filter, &channels, &nodes) {
        messages.push(ReplyMessage::borrowed(message))?;
    }
    Ok(Replies::from_vec(messages))
}
