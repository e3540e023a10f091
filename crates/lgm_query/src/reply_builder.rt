//! Building a reply from messages of a map.

ghost use Rattle.std.specs.Prelude.{◌≡◌, ◌%◌, ◌<◌, ◌++◌, ◌==◌, ◌∷◌, [], IfOk, OnOk, Some};
ghost use Rattle.std.specs.Int.{bit_at};
ghost use Rattle.std.specs.Option.{option_map};
ghost use Rattle.lgm_store.specs.ChannelInfo.{update_in};
ghost use Rattle.lgm_store.specs.Rows.{node_of};
ghost use Rattle.lgm_query.specs.Piece.{channel, update, node};
ghost use Rattle.lgm_query.specs.IdsReply.{when, chosen_of, chosen};
ghost use Rattle.lgm_query.specs.inner.Sent.{AreSent, Sends};

use crate::reply::ReplyMessage;
use lgm_gossip::{Point, Scid};
use lgm_store::{ChannelInfo, Map, Seed};
use std::alloc::{AllocError, Global};
use std::collections::HashSet;
use std::marker::Model;

/// The number of messages of a channel with its nodes: its announcement, two updates and those of its nodes.
const MESSAGES: usize = 5;

/// The messages of a reply so far, and the nodes whose announcements are among them.
#[derive(Drop)]
pub(crate) struct ReplyBuilder<'a> {
    messages: Vec<ReplyMessage<'a>>,
    nodes: HashSet<Point, Seed>,
}

impl<'a> Model for ReplyBuilder<'a> {
    ghost use Rattle.lgm_query.specs.inner.Sent.{Sent};

    ghost Value = { Sent };

    ghost view = { λ s. record { messages = s.messages.items; nodes = s.nodes.keys } };
}

impl<'a> ReplyBuilder<'a> {
    /// No messages, with room for those of this many channels, and for as many nodes, which are hashed by the seed.
    pub(crate) fn with_room(
        alloc: Global,
        channels: usize,
        seed: Seed,
    ) -> Result<ReplyBuilder<'a>, AllocError>
        ensures { IfOk result (λ builder. AreSent [] builder) }
    {
        Ok(ReplyBuilder {
            messages: Vec::with_capacity(alloc, channels.saturating_mul(MESSAGES))?,
            nodes: HashSet::with_capacity_and_hasher(alloc, channels, seed)?,
        })
    }

    /// The messages.
    pub(crate) fn into_messages(self) -> Vec<ReplyMessage<'a>>
        ensures { result.items ≡ self.entry.messages }
    {
        let ReplyBuilder { messages, .. } = self;
        messages
    }

    /// Adds the messages of a channel that the flags select, if it is in the map.
    pub(crate) fn send_chosen(
        &mut self,
        map: &'a Map,
        scid: Scid,
        flags: u64,
    ) -> Result<(), AllocError>
        ensures { OnOk result (Sends (chosen map.now (scid, flags)) self.old self.new) }
    {
        match map.channel_info(scid) {
            None => Ok(()),
            Some(stored) => self.send_chosen_of(map, flags, stored),
        }
    }

    fn send_chosen_of(
        &mut self,
        map: &'a Map,
        flags: u64,
        stored: &'a ChannelInfo,
    ) -> Result<(), AllocError>
        ensures { OnOk result (Sends (chosen_of map.now.nodes flags stored.now) self.old self.new) }
    {
        self.send_channel(stored, is_set(flags, 0))?;
        self.send_update(stored, false, is_set(flags, 1))?;
        self.send_update(stored, true, is_set(flags, 2))?;
        self.send_node(map, stored.node(false), is_set(flags, 3))?;
        self.send_node(map, stored.node(true), is_set(flags, 4))?;
        Ok(())
    }

    fn send_channel(&mut self, stored: &'a ChannelInfo, wanted: bool) -> Result<(), AllocError>
        ensures { OnOk result (Sends (when wanted (Some (channel stored.now.channel))) self.old self.new) }
    {
        if !wanted {
            return Ok(());
        }
        self.push(stored.raw())
    }

    fn send_update(
        &mut self,
        stored: &'a ChannelInfo,
        second: bool,
        wanted: bool,
    ) -> Result<(), AllocError>
        ensures { OnOk result
            (Sends (when wanted (option_map update (update_in second stored.now))) self.old self.new) }
    {
        if !wanted {
            return Ok(());
        }
        match stored.update_raw(second) {
            None => Ok(()),
            Some(raw) => self.push(raw),
        }
    }

    /// Adds the announcement of a node, if there is one and it wasn't sent.
    fn send_node(&mut self, map: &'a Map, point: &Point, wanted: bool) -> Result<(), AllocError>
        ensures { OnOk result (Sends
            (when wanted (option_map node (node_of map.now.nodes point.now)))
            self.old self.new) }
    {
        if !wanted {
            return Ok(());
        }
        let Some(row) = map.stored_node(point) else {
            return Ok(());
        };
        if !self.nodes.insert(*point)? {
            return Ok(());
        }
        self.push(row.raw())
    }

    /// Appends a message.
    fn push(&mut self, message: &'a [u8]) -> Result<(), AllocError>
        ensures messages { OnOk result (self.new.messages ≡ self.old.messages ++ message.now ∷ []) }
        ensures nodes { OnOk result (self.new.nodes ≡ self.old.nodes) }
    {
        self.messages.push(ReplyMessage::borrowed(message))?;
        Ok(())
    }
}

/// Whether a bit is set, numbered from the least significant.
fn is_set(flags: u64, bit: u32) -> bool
    requires { bit < 64 }
    ensures { result ≡ (bit_at flags bit == 1) }
{
    (flags >> bit) % 2 == 1
}
