//! The messages of a map that pass a filter.

ghost use Rattle.std.specs.Prelude.{◌≡◌, List, ℕ, ◌++◌};
ghost use Rattle.std.specs.Iterator.{YieldsFirstRef, item_count};
ghost use Rattle.lgm_query.specs.Backlog.{passing_rows, backlog};

use crate::filter::Filter;
use crate::matching_messages::MatchingMessages;
use lgm_store::{Channels, Map, Nodes};
use std::marker::Model;

/// The messages of a map that pass a filter, as they are sent to a peer that sets it (BOLT 7, "The
/// gossip_timestamp_filter Message"). An iterator; contracts see the list of the messages still to come.
///
/// Channels come first, by id: for each its announcement, if an update of it passes, and then the updates by node 1 and
/// by node 2 that pass. Then come the node announcements that pass, by point. Updates and node announcements pass by
/// their own timestamps.
///
/// Nothing is allocated or searched for: the whole iteration is linear in the map. An empty range passes nothing, and
/// costs nothing.
#[derive(Drop)]
pub struct Backlog<'a> {
    filter: Filter,
    /// The remaining messages of the last row.
    passing: MatchingMessages<'a>,
    channels: Channels<'a>,
    nodes: Nodes<'a>,
}

impl<'a> Model for Backlog<'a> {
    ghost Value = { List (List ℕ) };

    ghost view = { λ b. b.passing ++ passing_rows b.filter b.channels b.nodes };
}

impl<'a> Backlog<'a> {
    /// The messages of a map that pass, from the first on.
    pub fn of(map: &'a Map, filter: &Filter) -> Backlog<'a>
        ensures { result ≡ backlog map.now filter.now }
    {
        Backlog {
            filter: *filter,
            passing: MatchingMessages::none(),
            channels: map.channels(),
            nodes: map.nodes(),
        }
    }
}

impl<'a> Iterator for Backlog<'a> {
    type Item = &'a [u8];

    ghost next_gives = { YieldsFirstRef (λ left. left) };

    ghost remaining = { item_count (λ left. left) };

    fn next(&mut self) -> Option<&'a [u8]> {
        'rows: loop {
            if let Some(message) = self.passing.next() {
                return Some(message);
            }
            if self.filter.range == 0 {
                return None;
            }
            if let Some(stored) = self.channels.next() {
                self.passing = MatchingMessages::of_channel(&self.filter, stored);
            } else if let Some(row) = self.nodes.next() {
                self.passing = MatchingMessages::of_node(&self.filter, row);
            } else {
                return None;
            }
        }
    }
}
