//! Iteration over news.

ghost use Rattle.std.specs.Prelude.{◌≡◌, List, ℕ, ◌++◌};
ghost use Rattle.std.specs.Iterator.{YieldsFirstRef, item_count};
ghost use Rattle.std.specs.Slice.Iter.{iter_rest};
ghost use Rattle.lgm_query.specs.inner.Pairs.{news_of_pairs};

use crate::filter::Filter;
use crate::matching_messages::MatchingMessages;
use crate::pairs::{ChannelPair, NodePair};
use std::marker::Model;
use std::slice;

/// The messages that pass a filter in a later map and didn't in an earlier one, in the order of a
/// [`Backlog`](crate::Backlog). Contracts see the list of the messages still to come.
#[derive(Drop)]
pub struct News<'b, 'a> {
    filter: Filter,
    /// The remaining messages of the last row.
    passing: MatchingMessages<'a>,
    channels: slice::Iter<'b, ChannelPair<'a>>,
    nodes: slice::Iter<'b, NodePair<'a>>,
}

impl<'b, 'a> Model for News<'b, 'a> {
    ghost Value = { List (List ℕ) };

    ghost view = { λ n. n.passing ++ news_of_pairs n.filter (iter_rest n.channels) (iter_rest n.nodes) };
}

impl<'b, 'a> News<'b, 'a> {
    /// The news of channels, and then of nodes.
    pub(crate) fn of(
        filter: &Filter,
        channels: &'b [ChannelPair<'a>],
        nodes: &'b [NodePair<'a>],
    ) -> News<'b, 'a>
        ensures { result ≡ news_of_pairs filter.now channels.now nodes.now }
    {
        News {
            filter: *filter,
            passing: MatchingMessages::none(),
            channels: channels.iter(),
            nodes: nodes.iter(),
        }
    }
}

impl<'b, 'a> Iterator for News<'b, 'a> {
    type Item = &'a [u8];

    ghost next_gives = { YieldsFirstRef (λ left. left) };

    ghost remaining = { item_count (λ left. left) };

    fn next(&mut self) -> Option<&'a [u8]> {
        'rows: loop {
            if let Some(message) = self.passing.next() {
                return Some(message);
            }
            if self.filter.range == 0 {
                return None;
            }
            if let Some(pair) = self.channels.next() {
                self.passing = MatchingMessages::news_of_channel(&self.filter, pair);
            } else if let Some(pair) = self.nodes.next() {
                self.passing = MatchingMessages::news_of_node(&self.filter, pair);
            } else {
                return None;
            }
        }
    }
}
