//! Applying operations to a map.

ghost use Rattle.std.specs.Prelude.{◌≡◌, ◌≢◌, Bool, true, false, ◌||◌, OnOk, OnErr, filter, is_some, is_ok, IfOk, ◌++◌, Ok};
ghost use Rattle.std.specs.List.Sorted.{IsStrictlySortedBy};
ghost use Rattle.std.specs.Map.{keys_of, values_of};
ghost use Rattle.lgm_store.specs.Rows.{channel_of, node_of, ends_channel, ends_banned, is_banned};
ghost use Rattle.lgm_store.specs.Keys.{IsKeyed, point_cmp, point_of};
ghost use Rattle.lgm_store.specs.inner.ChannelsByNode.{stays_beside};
ghost use Rattle.lgm_store.specs.Admission.{node_admission};
ghost use Rattle.lgm_store.specs.History.{with_channel, with_update, with_node, without_channel, absorbed, fold};
ghost use Rattle.lgm_store.specs.History.{with_ban};
ghost use Rattle.lgm_store.specs.Reading.{ids_at};

use super::{Map, Parts};
use crate::banned::Banned;
use crate::channel_info::ChannelInfo;
use crate::channels_by_node::ChannelsByNode;
use crate::node_table::NodeTable;
use crate::op::Op;
use crate::shared::Shared;
use lgm_check::{BanRow, StoredChannel, StoredNode, StoredUpdate};
use lgm_gossip::{Point, Scid};
use std::alloc::{AllocError, Global};
use std::mem;

impl Map {
    /// Applies an operation, sharing its row.
    ///
    /// A channel is added unless it is in the map or one of its nodes is banned. An update is stored if its channel is
    /// in the map, and a node announcement if its node has a channel, each in place of the one before. A close removes
    /// a channel with its updates, and then the announcement of each node that has no channel left; it does nothing if
    /// the channel isn't in the map. A ban bans its four points, and removes all their channels as closes would; it
    /// takes as long as these. Out of memory leaves the map unchanged.
    pub fn absorb(&mut self, op: &Op) -> Result<(), AllocError>
        ensures ok { OnOk result (self.new ≡ absorbed self.old op.now) }
        ensures err { OnErr result (self.new ≡ self.old) }
    {
        match op {
            Op::Channel(row) => {
                self.add_channel(row)?;
                Ok(())
            }
            Op::Update(row) => {
                self.put_update(row.share()?);
                Ok(())
            }
            Op::Node(row) => self.put_node(row.share()?),
            Op::Close(id) => {
                self.close(*id);
                Ok(())
            }
            Op::Ban(ban) => self.ban(ban.get()),
        }
    }

    /// Adds a channel, sharing its row, and returns true, unless it is in the map or one of its nodes is banned. Out of
    /// memory leaves the map unchanged.
    pub(crate) fn add_channel(&mut self, row: &Shared<StoredChannel>) -> Result<bool, AllocError>
        ensures ok { OnOk result (self.new ≡ with_channel self.old row.now) }
        ensures new { result ≡ Ok true → is_some (channel_of self.old.channels row.now.message.short_channel_id) ≡ false }
        ensures allowed { result ≡ Ok true → ends_banned self.old.banned row.now ≡ false }
        ensures refused { result ≡ Ok false → (is_some (channel_of self.old.channels row.now.message.short_channel_id)
            || ends_banned self.old.banned row.now) ≡ true }
        ensures same { result ≢ Ok true → self.new ≡ self.old }
    {
        row.get().bytes_encode_row();
        let stored = ChannelInfo::new(row.share()?);
        let (scid, first, second) = (stored.scid(), *stored.node(false), *stored.node(true));
        let parts = &mut *self.parts;
        if parts.banned.contains_either(&first, &second) {
            return Ok(false);
        }
        if !parts.channels.insert(stored)? {
            return Ok(false);
        }
        match parts.ends.add(first, second, scid) {
            Ok(()) => Ok(true),
            Err(refused) => {
                parts.channels.discard(&scid);
                Err(refused)
            }
        }
    }

    fn put_update(&mut self, row: Shared<StoredUpdate>)
        ensures { self.new ≡ with_update self.old row }
    {
        row.get().bytes_encode_row();
        self.parts.channels.put_update(row);
    }

    pub(crate) fn put_node(&mut self, row: Shared<StoredNode>) -> Result<(), AllocError>
        ensures ok { OnOk result (self.new ≡ with_node self.old row) }
        ensures err { OnErr result (self.new ≡ self.old) }
    {
        if !self.ends_channel(&row.get().node()) {
            return Ok(());
        }
        row.get().bytes_encode_row();
        self.parts.nodes.put(row)?;
        Ok(())
    }

    /// Stores a node announcement, sharing its row, and returns true, if it is admitted. Out of memory leaves the map
    /// unchanged.
    pub(crate) fn add_node(&mut self, row: &Shared<StoredNode>) -> Result<bool, AllocError>
        ensures admitted { (added : Bool) → result ≡ Ok added → is_ok (node_admission
            (is_banned self.old.banned (point_of row.now)) (ends_channel self.old.channels (point_of row.now))
            (node_of self.old.nodes (point_of row.now)) row.now) ≡ added }
        ensures stored { result ≡ Ok true → self.new ≡ with_node self.old row.now }
        ensures same { result ≢ Ok true → self.new ≡ self.old }
    {
        let node = row.get().node();
        if self.banned(&node) || !self.ends_channel(&node) {
            return Ok(false);
        }
        row.get().bytes_encode_row();
        if !self.parts.nodes.put_newer(row)? {
            return Ok(false);
        }
        Ok(true)
    }

    pub(crate) fn close(&mut self, scid: Scid)
        ensures { self.new ≡ without_channel self.old scid }
    {
        let parts = &mut *self.parts;
        let Some(stored) = parts.channels.remove(&scid) else {
            return;
        };
        let (first, second) = (*stored.node(false), *stored.node(true));
        parts.ends.remove(&first, &second, scid);
        drop_unless_ended(&mut parts.nodes, &parts.ends, &first);
        drop_unless_ended(&mut parts.nodes, &parts.ends, &second);
    }
}

/// Removes the announcement of a node that has no channel left.
fn drop_unless_ended(nodes: &mut NodeTable, ends: &ChannelsByNode, node: &Point)
    requires keyed { IsKeyed point_of nodes.old }
    requires ascend { IsStrictlySortedBy point_cmp (keys_of nodes.old) }
    ensures keyed { IsKeyed point_of nodes.new }
    ensures ascend { IsStrictlySortedBy point_cmp (keys_of nodes.new) }
    ensures left { values_of nodes.new ≡ filter (stays_beside ends.now node.now) (values_of nodes.old) }
{
    if !ends.contains(node) {
        nodes.discard(node);
    }
}

impl Map {
    /// A copy with the same rows, which are shared. It takes the room of these rows, however many the map once had.
    pub fn copy(&self, alloc: Global) -> Result<Map, AllocError>
        ensures { IfOk result (λ copy. copy ≡ self.now) }
    {
        let parts = &*self.parts;
        let copy = Parts {
            alloc,
            channels: parts.channels.copy(alloc)?,
            nodes: parts.nodes.copy(alloc)?,
            ends: parts.ends.copy()?,
            banned: parts.banned.copy()?,
        };
        Ok(Map {
            parts: Box::new(alloc, copy)?,
        })
    }
}

impl Map {
    /// The map that a history leaves: its operations, applied one by one to an empty map.
    ///
    /// If points come from strangers, create the map by [`Map::with_seed`] and let it absorb the operations.
    pub fn replay(alloc: Global, history: &[Op]) -> Result<Map, AllocError>
        ensures { IfOk result (λ map. map ≡ fold history.now) }
    {
        let mut map = Map::new(alloc)?;
        for op in history {
            map.absorb(op)?;
        }
        Ok(map)
    }
}

impl Map {
    /// Bans the nodes of two channels. Out of memory leaves the map unchanged.
    pub(crate) fn ban(&mut self, ban: &BanRow) -> Result<(), AllocError>
        ensures ok { OnOk result (self.new ≡ with_ban self.old ban.now) }
        ensures err { OnErr result (self.new ≡ self.old) }
    {
        let scids = self.ids_of(ban)?;
        let parts = &mut *self.parts;
        parts.banned.ban(ban)?;
        // By the invariant no channel of a map has a banned node, so the set is empty while such channels are removed.
        let banned = mem::replace(&mut parts.banned, Banned::new(parts.alloc));
        for scid in &scids {
            self.close(*scid);
        }
        self.parts.banned = banned;
        Ok(())
    }

    /// The ids of the channels of the four points, point by point; an id may occur several times.
    fn ids_of(&self, ban: &BanRow) -> Result<Vec<Scid>, AllocError>
        ensures { IfOk result (λ scids. scids.items
            ≡ ((ids_at self.now.channels ban.now.held1 ++ ids_at self.now.channels ban.now.held2)
            ++ ids_at self.now.channels ban.now.new1) ++ ids_at self.now.channels ban.now.new2) }
    {
        let parts = &*self.parts;
        let mut scids = Vec::new(parts.alloc);
        parts.ends.gather(&ban.held1, &mut scids)?;
        parts.ends.gather(&ban.held2, &mut scids)?;
        parts.ends.gather(&ban.new1, &mut scids)?;
        parts.ends.gather(&ban.new2, &mut scids)?;
        Ok(scids)
    }
}
