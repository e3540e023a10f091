//! What is looked up of messages before they are offered, copied from them, so that the messages aren't read for that.

use super::lookup_cache::{NO_GUESS, guessed};
use lgm_check::{StoredChannel, StoredNode, StoredUpdate};
use lgm_gossip::{Point, Scid};

/// The channel of an update, and where it may be stored.
#[derive(Clone, Copy, Debug)]
pub(crate) struct UpdateLookup {
    pub(crate) scid: Scid,
    /// Whether the update's direction is from node 2.
    pub(crate) second: bool,
    /// The number of the channel's slot, or one that is too large for a cache.
    pub(crate) slot: usize,
}

/// A new channel with its two nodes, and where their lists of channels may be stored.
#[derive(Clone, Copy, Debug)]
pub(crate) struct ChannelLookup {
    pub(crate) scid: Scid,
    /// The number of the channel's slot, if it isn't new.
    pub(crate) slot: usize,
    pub(crate) first: NodeLookup,
    pub(crate) second: NodeLookup,
}

/// A node, and where its list of channels may be stored.
#[derive(Clone, Copy, Debug)]
pub(crate) struct NodeLookup {
    pub(crate) key: NodeKey,
    /// The place of the list, or one that is too large.
    pub(crate) place: usize,
}

/// What is compared of a point before it is compared: the first and the last eight bytes of its x coordinate. Two words,
/// so that it is copied as such.
#[derive(Clone, Copy, Debug)]
pub struct NodeKey {
    front: u64,
    back: u64,
}

impl NodeKey {
    /// The key of a point.
    pub fn of(point: &Point) -> NodeKey {
        let [_, a, b, c, d, e, f, g, h, .., i, j, k, l, m, n, o, p] = point.0;
        NodeKey {
            front: u64::from_be_bytes([a, b, c, d, e, f, g, h]),
            back: u64::from_be_bytes([i, j, k, l, m, n, o, p]),
        }
    }

    /// The first eight bytes, as a number, by which a point is cached.
    pub fn front(self) -> u64 {
        self.front
    }

    /// Whether the point has this key, by what is first and what is last of it in memory.
    pub(crate) fn is_of(self, point: &Point) -> bool {
        let own = NodeKey::of(point);
        (own.front == self.front) & (own.back == self.back)
    }
}

impl UpdateLookup {
    pub(crate) fn of(row: &StoredUpdate) -> UpdateLookup {
        UpdateLookup {
            scid: row.scid(),
            second: row.is_second(),
            slot: NO_GUESS,
        }
    }

    /// Where the channel may be stored, after it was looked up.
    pub(crate) fn hint(&self) -> Hint {
        Hint { slot: self.slot }
    }
}

impl ChannelLookup {
    pub(crate) fn of(row: &StoredChannel) -> ChannelLookup {
        ChannelLookup {
            scid: row.scid(),
            slot: NO_GUESS,
            first: NodeLookup::at(&row.node(false)),
            second: NodeLookup::at(&row.node(true)),
        }
    }
}

impl NodeLookup {
    pub(crate) fn of(row: &StoredNode) -> NodeLookup {
        NodeLookup::at(&row.node())
    }

    fn at(point: &Point) -> NodeLookup {
        NodeLookup {
            key: NodeKey::of(point),
            place: NO_GUESS,
        }
    }
}

/// Where the channel of an update may be stored. It may be wrong: what is found there is compared, and no answer depends
/// on it.
#[derive(Clone, Copy, Debug)]
pub struct Hint {
    /// The number of the channel's slot, or one that is too large for a cache.
    slot: usize,
}

impl Hint {
    /// No place.
    pub fn none() -> Hint {
        Hint { slot: NO_GUESS }
    }

    /// The number of the channel's slot, if there is a guess.
    pub(crate) fn slot(self) -> Option<usize> {
        guessed(self.slot)
    }
}
