//! The rows that two maps have of a channel or a node.

ghost use Rattle.std.specs.Prelude.{◌≡◌, Some, []};
ghost use Rattle.std.specs.Option.{option_copied, option_map_or};
ghost use Rattle.lgm_query.specs.declared.filter.Filter.{Filter as AnyFilter};
ghost use Rattle.lgm_query.specs.KeyNews.{news_of_channel, news_of_node};
ghost use Rattle.lgm_query.specs.inner.SentWith.{sent_with, update_message, is_node_message};

use crate::filter::Filter;
use crate::matching_messages::MatchingMessages;
use crate::sent_with::SentWith;
use lgm_check::StoredNode;
use lgm_gossip::{Point, Scid};
use lgm_store::{ChannelInfo, Map};

/// A channel of a later map, its row in an earlier one, and for each message the earlier updates with which it was
/// sent.
#[derive(Drop)]
pub(crate) struct ChannelPair<'a> {
    pub(crate) before: Option<&'a ChannelInfo>,
    pub(crate) after: &'a ChannelInfo,
    pub(crate) announcement: SentWith,
    pub(crate) first: SentWith,
    pub(crate) second: SentWith,
    ghost of_announcement: { announcement ≡ sent_with (option_copied before) (Some after.now.channel.raw) },
    ghost of_first: { first ≡ sent_with (option_copied before) (update_message after.now.first) },
    ghost of_second: { second ≡ sent_with (option_copied before) (update_message after.now.second) },
}

/// A node of a later map, its row in an earlier one, and whether both have the same message.
#[derive(Drop)]
pub(crate) struct NodePair<'a> {
    pub(crate) before: Option<&'a StoredNode>,
    pub(crate) after: &'a StoredNode,
    pub(crate) is_same: bool,
    ghost same: { is_same ≡ is_node_message (option_copied before) after.now.raw },
}

impl<'a> ChannelPair<'a> {
    ghost use Rattle.lgm_query.specs.inner.Pairs.{IsAskedFor, news_of_channel_pair};

    /// The pair of an id, if the later map has it. The messages are compared here, once for all filters.
    pub(crate) fn at(before: &'a Map, after: &'a Map, scid: Scid) -> Option<ChannelPair<'a>>
        ensures { (f : AnyFilter)
            → option_map_or (news_of_channel_pair f) result [] ≡ news_of_channel f before.now after.now scid }
    {
        let after = after.channel_info(scid)?;
        let before = before.channel_info(scid);
        Some(ChannelPair {
            before,
            after,
            announcement: SentWith::of(Some(after.raw()), before),
            first: SentWith::of(after.update_raw(false), before),
            second: SentWith::of(after.update_raw(true), before),
        })
    }

    /// The same, but if only one filter is asked for, no pair of which nothing passes that.
    pub(crate) fn passing(
        before: &'a Map,
        after: &'a Map,
        scid: Scid,
        only: Option<Filter>,
    ) -> Option<ChannelPair<'a>>
        ensures { (f : AnyFilter) → IsAskedFor only f
            → option_map_or (news_of_channel_pair f) result [] ≡ news_of_channel f before.now after.now scid }
    {
        if let Some(filter) = only {
            let stored = after.channel_info(scid)?;
            if MatchingMessages::of_channel(&filter, stored).is_empty() {
                return None;
            }
        }
        ChannelPair::at(before, after, scid)
    }
}

impl<'a> NodePair<'a> {
    ghost use Rattle.lgm_query.specs.inner.Pairs.{IsAskedFor, news_of_node_pair};

    /// The pair of a node, if the later map has it. The messages are compared here, once for all filters.
    pub(crate) fn at(before: &'a Map, after: &'a Map, node: &Point) -> Option<NodePair<'a>>
        ensures { (f : AnyFilter)
            → option_map_or (news_of_node_pair f) result [] ≡ news_of_node f before.now after.now node.now }
    {
        let after = after.stored_node(node)?;
        let before = before.stored_node(node);
        let is_same = match before {
            Some(row) => row.raw() == after.raw(),
            None => false,
        };
        Some(NodePair {
            before,
            after,
            is_same,
        })
    }

    /// The same, but if only one filter is asked for, no pair of which nothing passes that.
    pub(crate) fn passing(
        before: &'a Map,
        after: &'a Map,
        node: &Point,
        only: Option<Filter>,
    ) -> Option<NodePair<'a>>
        ensures { (f : AnyFilter) → IsAskedFor only f
            → option_map_or (news_of_node_pair f) result [] ≡ news_of_node f before.now after.now node.now }
    {
        if let Some(filter) = only {
            let stored = after.stored_node(node)?;
            if MatchingMessages::of_node(&filter, stored).is_empty() {
                return None;
            }
        }
        NodePair::at(before, after, node)
    }
}
