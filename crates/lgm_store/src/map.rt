//! The map of channels, their directions and nodes.

ghost use Rattle.std.specs.Prelude.{◌≡◌, IfOk};
ghost use Rattle.lgm_store.specs.Rows.{empty};

mod absorb;
mod admit;
mod lookahead;
mod offer;
mod read;

use crate::banned::Banned;
use crate::channel_table::ChannelTable;
use crate::channels_by_node::ChannelsByNode;
use crate::node_table::NodeTable;
use crate::seed::Seed;
use std::alloc::{AllocError, Global};
use std::marker::Model;

/// The public channels, their updates and nodes, as announced, and the banned nodes. Contracts see the rows.
///
/// A call on one item takes time logarithmic in the size of the map; a close takes also a pass over the ids of the
/// channels of its two nodes, and a ban takes what a close does for each channel of its four nodes. The parts are in a box, so
/// that a map is moved in one word.
#[derive(Drop)]
pub struct Map {
    parts: Box<Parts>,
}

/// The parts of a map.
#[derive(Drop)]
struct Parts {
    alloc: Global,
    /// Channels with their updates.
    channels: ChannelTable,
    /// Node announcements.
    nodes: NodeTable,
    /// The ids of the channels of each node.
    ends: ChannelsByNode,
    banned: Banned,
}

impl Model for Map {
    ghost use Rattle.lgm_store.specs.Rows.{Rows};

    ghost Value = { Rows };

    ghost use Rattle.std.specs.Map.{values_of};
    ghost use Rattle.lgm_store.specs.inner.ChannelEntries.{channel_entries, update_entries};
    ghost use Rattle.lgm_store.specs.inner.Sound.{IsKept};

    ghost view = { λ m. let parts = m.parts.value in record {
      channels = values_of (channel_entries parts.channels);
      updates = values_of (update_entries parts.channels);
      nodes = values_of parts.nodes;
      banned = parts.banned;
    } };

    ghost invariant = { λ m. let parts = m.parts.value in
        IsKept (channel_entries parts.channels) (update_entries parts.channels) parts.nodes parts.ends parts.banned };
}

impl Map {
    /// An empty map. Allocates nothing but the box of its parts.
    ///
    /// If points come from strangers, use [`Map::with_seed`].
    pub fn new(alloc: Global) -> Result<Map, AllocError>
        ensures { IfOk result (λ map. map ≡ empty) }
    {
        Map::with_seed(alloc, Seed::new([0; 16]))
    }

    /// An empty map, which hashes points by this seed. Allocates nothing but the box of its parts.
    pub fn with_seed(alloc: Global, seed: Seed) -> Result<Map, AllocError>
        ensures { IfOk result (λ map. map ≡ empty) }
    {
        let parts = Parts {
            alloc,
            channels: ChannelTable::new(alloc),
            nodes: NodeTable::new(alloc),
            ends: ChannelsByNode::new(alloc, seed)?,
            banned: Banned::new(alloc),
        };
        Ok(Map {
            parts: Box::new(alloc, parts)?,
        })
    }

    /// The seed by which the map hashes points.
    pub fn seed(&self) -> Seed {
        self.parts.ends.seed()
    }
}
