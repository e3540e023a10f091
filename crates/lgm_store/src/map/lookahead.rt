//! Looking up messages before they are offered.
//!
//! A read that misses the processor's caches takes long, but several that don't depend on each other take no longer than
//! one. So a caller that offers many messages first has what is stored for some of them read, and then offers these: what
//! offering reads is in the caches by then. No contract depends on it.

use super::Map;
use crate::channels_by_node::ChannelsByNode;
use crate::lookahead::lookup::{ChannelLookup, NodeLookup, UpdateLookup};

impl Map {
    /// Looks up the channels of updates: where their slots may be, and what is there.
    pub(crate) fn look_up_updates(&self, lookups: &mut [UpdateLookup]) {
        let channels = &self.parts.channels;
        for lookup in lookups.iter_mut() {
            lookup.slot = channels.raw_guess(lookup.scid);
        }
        for lookup in lookups {
            lookup.slot = channels.prefetch(lookup.slot, lookup.scid, lookup.second);
        }
    }

    /// Looks up new channels: where the lists of their nodes may be, what is there, and the last ids of the lists.
    pub(crate) fn look_up_channels(&self, lookups: &mut [ChannelLookup]) {
        let parts = &*self.parts;
        for lookup in lookups.iter_mut() {
            lookup.slot = parts.channels.raw_guess(lookup.scid);
            lookup.first.place = parts.ends.raw_guess(lookup.first.key);
            lookup.second.place = parts.ends.raw_guess(lookup.second.key);
        }
        for lookup in lookups.iter_mut() {
            prefetch_list(&parts.ends, &mut lookup.first);
            prefetch_list(&parts.ends, &mut lookup.second);
        }
        for lookup in lookups {
            let (first, second, scid) = (lookup.first.place, lookup.second.place, lookup.scid);
            lookup.first.place = parts.ends.prefetch_ids(first, scid);
            lookup.second.place = parts.ends.prefetch_ids(second, scid);
        }
    }

    /// Looks up the nodes of announcements: where their lists of channels may be, and what is there.
    pub(crate) fn look_up_nodes(&self, lookups: &mut [NodeLookup]) {
        let ends = &self.parts.ends;
        for lookup in lookups.iter_mut() {
            lookup.place = ends.raw_guess(lookup.key);
        }
        for lookup in lookups {
            prefetch_list(ends, lookup);
        }
    }
}

/// Reads what is where the list of a node may be.
#[inline(always)]
fn prefetch_list(ends: &ChannelsByNode, lookup: &mut NodeLookup) {
    lookup.place = ends.prefetch(lookup.place, lookup.key);
}
