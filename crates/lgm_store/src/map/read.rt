//! Reading a map.

ghost use Rattle.std.specs.Prelude.{◌≡◌, ℕ, Bool, ◌-◌, ◌*◌, ◌^◌, ◌<◌, ◌≤◌, IfOk, length, map, min};
ghost use Rattle.std.specs.Option.{option_copied, option_map, option_and_then};
ghost use Rattle.lgm_store.specs.ChannelInfo.{update_in};
ghost use Rattle.lgm_store.specs.ChannelInfo.{stored_at};
ghost use Rattle.lgm_store.specs.Laws.{IsLawful};
ghost use Rattle.lgm_store.specs.Spelled.{AreSpelled};
ghost use Rattle.lgm_store.specs.Rows.{IsAscending, channel_of, update_of, node_of, ends_channel, is_banned};
ghost use Rattle.lgm_store.specs.Reading.{next_channel_of, next_node_of, next_point_of, ids_at, block_of};
ghost use Rattle.lgm_store.specs.Reading.{ids_between_of, channels_between_of};
ghost use Rattle.lgm_store.specs.inner.Start.{start_after, IsEndBefore};

use super::Map;
use crate::channel_info::ChannelInfo;
use crate::channel_table::ROWS_TOGETHER;
use crate::iter::{Channels, ChannelsBetween, Nodes};
use lgm_check::{ChannelRow, NodeRow, StoredNode, UpdateRow};
use lgm_gossip::{Point, Scid, Scids};
use std::alloc::{AllocError, Global};
use std::ops::Bound;

impl Map {
    /// The rows of every map are lawful. A call does nothing: its contract is the law.
    pub fn rows_are_lawful(&self)
        ensures { IsLawful self.now }
    {
        let _ = &self.parts.alloc;
    }

    /// The bytes of each row of every map encode it. A call does nothing: its contract is the law.
    pub fn bytes_encode_rows(&self)
        ensures { AreSpelled self.now }
    {
        let _ = &self.parts.alloc;
    }

    /// A channel with its updates, if it is in the map.
    pub fn channel_info(&self, scid: Scid) -> Option<&ChannelInfo>
        ensures channel { option_map (λ stored. stored.channel) (option_copied result)
            ≡ channel_of self.now.channels scid }
        ensures update { (second : Bool) → option_and_then (update_in second) (option_copied result)
            ≡ update_of self.now.updates scid second }
        ensures stored { option_copied result
            ≡ option_map (stored_at self.now) (channel_of self.now.channels scid) }
    {
        self.parts.channels.get(&scid)
    }

    /// Reads the rows of the first [`ROWS_TOGETHER`] of these channels, and of their nodes, so that the processor's cache has
    /// them.
    ///
    /// A caller that reads many channels calls this for some of them before it reads the first: reads that don't depend
    /// on each other wait for the memory at the same time.
    pub fn prefetch_rows(&self, scids: &[Scid]) {
        let parts = &*self.parts;
        let node_keys = parts.channels.prefetch_rows(scids);
        parts.nodes.prefetch_rows(node_keys.as_slice());
    }

    /// The row of a channel, if it is in the map.
    pub fn channel(&self, scid: Scid) -> Option<ChannelRow<'_>>
        ensures { result ≡ channel_of self.now.channels scid }
    {
        let stored = self.channel_info(scid)?;
        Some(stored.row())
    }

    /// The row of a channel's update from node 2 if `second`, else from node 1; none if it isn't in the map.
    pub fn update(&self, scid: Scid, second: bool) -> Option<UpdateRow<'_>>
        ensures { result ≡ update_of self.now.updates scid second }
    {
        self.channel_info(scid)?.update(second)
    }

    /// The row of a node, if its announcement is in the map.
    pub fn node(&self, node: &Point) -> Option<NodeRow<'_>>
        ensures { result ≡ node_of self.now.nodes node.now }
    {
        let kept = self.stored_node(node)?;
        Some(kept.row())
    }

    /// The announcement of a node as it is stored, if it is in the map.
    pub fn stored_node(&self, node: &Point) -> Option<&StoredNode>
        ensures { option_copied result ≡ node_of self.now.nodes node.now }
    {
        let row = self.parts.nodes.get(node)?;
        Some(row.get())
    }

    /// Whether the node has a channel in the map. Allocates nothing.
    pub fn ends_channel(&self, node: &Point) -> bool
        ensures { result ≡ ends_channel self.now.channels node.now }
    {
        self.parts.ends.contains(node)
    }

    /// The ids of a node's channels, ascending. Only these are visited.
    pub fn ids_at(&self, alloc: Global, node: &Point) -> Result<Scids, AllocError>
        ensures { IfOk result (λ ids. ids ≡ ids_at self.now.channels node.now) }
    {
        let mut ids = Vec::new(alloc);
        self.parts.ends.gather(node, &mut ids)?;
        Ok(Scids::from_vec(ids))
    }

    /// Whether the node is banned. Allocates nothing.
    pub fn banned(&self, node: &Point) -> bool
        ensures { result ≡ is_banned self.now.banned node.now }
    {
        self.parts.banned.contains(node)
    }

    /// The number of channels.
    pub fn count(&self) -> usize
        ensures value { result ≡ length self.now.channels }
        ensures ascend { IsAscending self.now }
    {
        self.parts.channels.len()
    }

    /// The channel with the least id above the given one, or with the least of all if none is given.
    pub fn next_channel(&self, after: Option<Scid>) -> Option<ChannelRow<'_>>
        ensures { result ≡ next_channel_of self.now.channels after }
    {
        let mut channels = self
            .parts
            .channels
            .range(start_after(after), Bound::Unbounded);
        let stored = channels.next()?;
        Some(stored.row())
    }

    /// The node announcement with the least node id above the given one, byte by byte, or with the least of all if none
    /// is given.
    pub fn next_node(&self, after: Option<&Point>) -> Option<NodeRow<'_>>
        ensures { result ≡ next_node_of self.now.nodes (option_copied after.entry) }
    {
        let mut nodes = self
            .parts
            .nodes
            .range(start_after(after.copied()), Bound::Unbounded);
        let stored = nodes.next()?;
        Some(stored.row())
    }

    /// The banned point that is the least above the given one, byte by byte, or the least of all if none is given.
    pub fn next_banned(&self, after: Option<Point>) -> Option<Point>
        ensures { result ≡ next_point_of self.now.banned after }
    {
        self.parts.banned.first_from(start_after(after))
    }

    /// All channels with their updates, by ascending id.
    pub fn channels(&self) -> Channels<'_>
        ensures { result ≡ map (stored_at self.now) self.now.channels }
    {
        self.parts
            .channels
            .range(Bound::Unbounded, Bound::Unbounded)
    }

    /// All node announcements, by ascending node id.
    pub fn nodes(&self) -> Nodes<'_>
        ensures { result ≡ self.now.nodes }
    {
        self.parts.nodes.range(Bound::Unbounded, Bound::Unbounded)
    }

    /// The channels funded in the blocks from `from` up to but excluding `to`, with their updates, by ascending id.
    /// Only these are visited.
    pub fn channels_between(&self, from: u64, to: u64) -> ChannelsBetween<'_>
        ensures { result ≡ map (stored_at self.now) (channels_between_of self.now.channels from to) }
    {
        let start = start_of(from);
        let end = if from < to {
            end_before(to)
        } else {
            Bound::Excluded(start)
        };
        let channels = self.parts.channels.range(Bound::Included(start), end);
        ChannelsBetween::new(channels, from, to)
    }

    /// The ids of the channels funded in the blocks from `from` up to but excluding `to`, ascending. Only these are
    /// visited.
    pub fn ids_between(&self, alloc: Global, from: u64, to: u64) -> Result<Scids, AllocError>
        ensures { IfOk result (λ ids. ids ≡ ids_between_of self.now.channels from to) }
    {
        let mut ids = Vec::with_capacity(alloc, self.capacity_between(from, to))?;
        for stored in self.channels_between(from, to) {
            ids.push(stored.scid())?;
        }
        Ok(Scids::from_vec(ids))
    }

    /// The capacity to reserve for what is collected of the channels of these blocks: their number if the range has all
    /// blocks, else 0. No contract depends on it.
    pub fn capacity_between(&self, from: u64, to: u64) -> usize {
        if from == 0 && to >= BLOCKS {
            self.count()
        } else {
            0
        }
    }
}

/// The number of ids per block.
const BLOCK: u64 = 1 << 40;

/// The number of blocks that ids can have.
const BLOCKS: u64 = 1 << 24;

/// The first id of a block, or the greatest of all if no id has the block.
fn start_of(block: u64) -> Scid
    ensures exact { result ≡ min (block * 2 ^ 40) (2 ^ 64 - 1) }
    ensures least { result ≤ block * 2 ^ 40 }
    ensures earlier { (id : ℕ) → id < result → block_of id < block }
{
    Scid::from_u64(block.saturating_mul(BLOCK))
}

/// The upper bound that excludes the ids of this block and later ones, and no others.
fn end_before(block: u64) -> Bound<Scid>
    ensures { IsEndBefore block result }
{
    match block.checked_mul(BLOCK) {
        Some(end) => Bound::Excluded(Scid::from_u64(end)),
        None => Bound::Unbounded,
    }
}

/// The lower bound of the keys above one, or of all keys.
fn start_after<K>(after: Option<K>) -> Bound<K>
    ensures { result ≡ start_after after }
{
    match after {
        Some(key) => Bound::Excluded(key),
        None => Bound::Unbounded,
    }
}
