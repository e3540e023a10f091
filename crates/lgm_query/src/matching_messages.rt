//! The messages of one channel or node that pass a filter.

ghost use Rattle.std.specs.Prelude.{◌≡◌, ◌||◌, List, ℕ, [], ◌++◌, true};
ghost use Rattle.std.specs.Bool.{then_some};
ghost use Rattle.std.specs.Iterator.{YieldsFirstRef, item_count};
ghost use Rattle.std.specs.Option.{option_copied, option_to_list, is_some};
ghost use Rattle.lgm_store.specs.ChannelInfo.{update_in};
ghost use Rattle.lgm_query.specs.Backlog.{passing_update, passing_channel, passing_node};
ghost use Rattle.lgm_query.specs.inner.SentWith.{unless_passed};
ghost use Rattle.lgm_query.specs.inner.Pairs.{news_of_channel_pair, news_of_node_pair};

use crate::filter::Filter;
use crate::pairs::{ChannelPair, NodePair};
use crate::sent_with::SentWith;
use lgm_check::StoredNode;
use lgm_store::ChannelInfo;
use std::marker::Model;

/// An iterator over the messages of one channel or node that pass a filter. Contracts see the list of those still to
/// come.
#[derive(Drop)]
pub(crate) struct MatchingMessages<'a> {
    announcement: Option<&'a [u8]>,
    first: Option<&'a [u8]>,
    second: Option<&'a [u8]>,
}

impl<'a> Model for MatchingMessages<'a> {
    ghost Value = { List (List ℕ) };

    ghost view = { λ p. option_to_list (option_copied p.announcement)
        ++ option_to_list (option_copied p.first) ++ option_to_list (option_copied p.second) };
}

impl<'a> MatchingMessages<'a> {
    /// No messages.
    pub(crate) fn none() -> MatchingMessages<'a>
        ensures { result ≡ [] }
    {
        MatchingMessages {
            announcement: None,
            first: None,
            second: None,
        }
    }

    /// Whether there is none.
    pub(crate) fn is_empty(&self) -> bool
        ensures { result ≡ true → self.now ≡ [] }
    {
        self.announcement.is_none() && self.first.is_none() && self.second.is_none()
    }

    /// The messages of a channel: its announcement, if an update of it passes, and then the updates that pass.
    pub(crate) fn of_channel(filter: &Filter, stored: &'a ChannelInfo) -> MatchingMessages<'a>
        ensures { result ≡ passing_channel filter.now stored.now }
    {
        let first = passing_update(filter, stored, false);
        let second = passing_update(filter, stored, true);
        MatchingMessages {
            announcement: announcement_before(stored, first, second),
            first,
            second,
        }
    }

    /// The message of a node's row, if it passes.
    pub(crate) fn of_node(filter: &Filter, row: &'a StoredNode) -> MatchingMessages<'a>
        ensures { result ≡ passing_node filter.now row.now }
    {
        if !filter.passes(row.timestamp()) {
            return MatchingMessages::none();
        }
        MatchingMessages {
            announcement: Some(row.raw()),
            first: None,
            second: None,
        }
    }

    /// The messages of a channel that pass and didn't before. No message is read.
    pub(crate) fn news_of_channel(filter: &Filter, pair: &ChannelPair<'a>) -> MatchingMessages<'a>
        ensures { result ≡ news_of_channel_pair filter.now pair.now }
    {
        let first = passing_update(filter, pair.after, false);
        let second = passing_update(filter, pair.after, true);
        let announcement = announcement_before(pair.after, first, second);
        MatchingMessages {
            announcement: unless_passed(filter, pair.before, pair.announcement, announcement),
            first: unless_passed(filter, pair.before, pair.first, first),
            second: unless_passed(filter, pair.before, pair.second, second),
        }
    }

    /// The message of a node, if it passes and didn't before. It isn't read.
    pub(crate) fn news_of_node(filter: &Filter, pair: &NodePair<'a>) -> MatchingMessages<'a>
        ensures { result ≡ news_of_node_pair filter.now pair.now }
    {
        match pair.before {
            Some(row) if pair.is_same && filter.passes(row.timestamp()) => MatchingMessages::none(),
            _ => MatchingMessages::of_node(filter, pair.after),
        }
    }
}

impl<'a> Iterator for MatchingMessages<'a> {
    type Item = &'a [u8];

    ghost next_gives = { YieldsFirstRef (λ left. left) };

    ghost remaining = { item_count (λ left. left) };

    fn next(&mut self) -> Option<&'a [u8]> {
        if let Some(announcement) = self.announcement.take() {
            return Some(announcement);
        }
        if let Some(first) = self.first.take() {
            return Some(first);
        }
        self.second.take()
    }
}

/// The announcement of a channel, if an update is to be sent after it.
fn announcement_before<'a>(
    stored: &'a ChannelInfo,
    first: Option<&[u8]>,
    second: Option<&[u8]>,
) -> Option<&'a [u8]>
    ensures { let is_any = is_some (option_copied first.entry) || is_some (option_copied second.entry) in
        option_copied result ≡ then_some is_any stored.now.channel.raw }
{
    if first.is_none() && second.is_none() {
        return None;
    }
    Some(stored.raw())
}

/// The message, unless it passed before with one of these updates.
fn unless_passed<'a>(
    filter: &Filter,
    before: Option<&ChannelInfo>,
    sent: SentWith,
    message: Option<&'a [u8]>,
) -> Option<&'a [u8]>
    ensures { option_copied result
        ≡ unless_passed filter.now (option_copied before.entry) sent (option_copied message.entry) }
{
    match (before, message) {
        (Some(stored), Some(_)) if sent.passed(filter, stored) => None,
        _ => message,
    }
}

/// The message of a channel's update, if there is one and it passes. Of one that doesn't, only the timestamp is read.
fn passing_update<'a>(filter: &Filter, stored: &'a ChannelInfo, second: bool) -> Option<&'a [u8]>
    ensures { option_copied result ≡ passing_update filter.now (update_in second stored.now) }
{
    let time = stored.update_time(second)?;
    if !filter.passes(time) {
        return None;
    }
    stored.update_raw(second)
}
