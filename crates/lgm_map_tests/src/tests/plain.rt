//! A plain program with the same contract: lists of small keys, searched from end to end.

use super::item::Item;
use std::alloc::{AllocError, Global};

/// A channel's nodes, the lesser one first, and the mark of its announcement.
#[derive(Clone, Copy, Debug, PartialEq, Eq)]
pub struct Channel {
    pub nodes: (u8, u8),
    pub mark: u16,
}

/// The timestamp of an update or of a node's announcement, and its mark.
#[derive(Clone, Copy, Debug, PartialEq, Eq)]
pub struct Dated {
    pub timestamp: u32,
    pub mark: u16,
}

/// The rows, in lists that ascend by their keys.
#[derive(Drop)]
pub struct Plain {
    alloc: Global,
    /// By id.
    pub channels: Vec<(u64, Channel)>,
    /// By id and direction.
    pub updates: Vec<((u64, bool), Dated)>,
    /// By node.
    pub nodes: Vec<(u8, Dated)>,
    /// The banned nodes, some more than once.
    banned: Vec<u8>,
}

/// The row of a key.
pub fn stored<K: PartialEq + Copy, V: Copy>(rows: &[(K, V)], key: K) -> Option<V> {
    for row in rows {
        if row.0 == key {
            return Some(row.1);
        }
    }
    None
}

/// The list with the value of a key replaced.
fn put<K: Ord + Copy, V: Copy>(
    alloc: Global,
    rows: &[(K, V)],
    key: K,
    value: V,
) -> Result<Vec<(K, V)>, AllocError> {
    let mut with = Vec::new(alloc);
    for row in rows {
        if row.0 < key {
            with.push(*row)?;
        }
    }
    with.push((key, value))?;
    for row in rows {
        if row.0 > key {
            with.push(*row)?;
        }
    }
    Ok(with)
}

/// Whether the node has a channel.
pub fn ends(channels: &[(u64, Channel)], node: u8) -> bool {
    channels
        .iter()
        .any(|row| row.1.nodes.0 == node || row.1.nodes.1 == node)
}

/// Whether a date isn't above the stored one, if there is one.
fn is_old(stored: Option<Dated>, dated: Dated) -> bool {
    match stored {
        Some(stored) => dated.timestamp <= stored.timestamp,
        None => false,
    }
}

impl Plain {
    pub fn new(alloc: Global) -> Plain {
        Plain {
            alloc,
            channels: Vec::new(alloc),
            updates: Vec::new(alloc),
            nodes: Vec::new(alloc),
            banned: Vec::new(alloc),
        }
    }

    /// Accepts an item, or refuses it, and returns the word of its outcome.
    pub fn take(&mut self, item: &Item, mark: u16) -> Result<&'static str, AllocError> {
        match *item {
            Item::Channel { id, nodes } => self.channel(id, Channel { nodes, mark }),
            Item::Update {
                id,
                flags,
                timestamp,
                signer,
            } => self.update(id, flags % 2 == 1, Dated { timestamp, mark }, signer),
            Item::Node { node, timestamp } => self.node(node, Dated { timestamp, mark }),
            Item::Close { id } => Ok(self.close(id)),
        }
    }

    /// Whether a node is banned.
    pub fn is_banned(&self, node: u8) -> bool {
        self.banned.as_slice().contains(&node)
    }

    fn channel(&mut self, id: u64, channel: Channel) -> Result<&'static str, AllocError> {
        let (first, second) = channel.nodes;
        if self.is_banned(first) || self.is_banned(second) {
            return Ok("banned");
        }
        match stored(self.channels.as_slice(), id) {
            Some(stored) if stored.nodes == channel.nodes => Ok("known"),
            Some(stored) => self.ban([stored.nodes.0, stored.nodes.1, first, second]),
            None => {
                self.channels = put(self.alloc, self.channels.as_slice(), id, channel)?;
                Ok("accepted")
            }
        }
    }

    fn update(
        &mut self,
        id: u64,
        second: bool,
        dated: Dated,
        signer: u8,
    ) -> Result<&'static str, AllocError> {
        let Some(channel) = stored(self.channels.as_slice(), id) else {
            return Ok("unknown-channel");
        };
        let (first_node, second_node) = channel.nodes;
        if signer != (if second { second_node } else { first_node }) {
            return Ok("signature");
        }
        if is_old(stored(self.updates.as_slice(), (id, second)), dated) {
            return Ok("not-newer");
        }
        self.updates = put(self.alloc, self.updates.as_slice(), (id, second), dated)?;
        Ok("accepted")
    }

    fn node(&mut self, node: u8, dated: Dated) -> Result<&'static str, AllocError> {
        if self.is_banned(node) {
            return Ok("banned");
        }
        if !ends(self.channels.as_slice(), node) {
            return Ok("unknown-node");
        }
        if is_old(stored(self.nodes.as_slice(), node), dated) {
            return Ok("not-newer");
        }
        self.nodes = put(self.alloc, self.nodes.as_slice(), node, dated)?;
        Ok("accepted")
    }

    fn close(&mut self, id: u64) -> &'static str {
        if stored(self.channels.as_slice(), id).is_none() {
            return "unknown-channel";
        }
        self.channels.retain(|row| row.0 != id);
        self.forget();
        "accepted"
    }

    fn ban(&mut self, nodes: [u8; 4]) -> Result<&'static str, AllocError> {
        self.banned.extend_from_slice(&nodes)?;
        let banned = self.banned.as_slice();
        self.channels.retain(|row| !banned.contains(&row.1.nodes.0)
            && !banned.contains(&row.1.nodes.1));
        self.forget();
        Ok("accepted")
    }

    /// Removes updates and node announcements left without a channel.
    fn forget(&mut self) {
        let channels = self.channels.as_slice();
        self.updates
            .retain(|row| stored(channels, row.0.0).is_some());
        self.nodes.retain(|row| ends(channels, row.0));
    }
}
