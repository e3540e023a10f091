//! Whether an item is admitted.

ghost use Rattle.std.specs.Prelude.{◌≡◌};
ghost use Rattle.lgm_store.specs.Rows.{channel_of, update_of, node_of, ends_channel, is_banned, is_second};
ghost use Rattle.lgm_store.specs.Admission.{channel_admission, update_admission, node_admission};
ghost use Rattle.lgm_store.specs.Admission.{admitted, admitted_close, verdict_of, Offers};
ghost use Rattle.lgm_store.specs.inner.Decided.{channel_op, update_op, node_op};
ghost use Rattle.lgm_store.specs.Spelled.{IsSpelled};

use super::Map;
use crate::checked_message::{CheckedMessage, StoredMessage};
use crate::op::Op;
use crate::shared::Shared;
use lgm_check::{BanRow, ChannelRow, Checked, NodeRow, Refusal, UpdateRow};
use lgm_gossip::{Point, Scid};
use std::alloc::Global;

impl Map {
    /// The operation of a message that is admitted, or why it isn't, by the first reason of these.
    ///
    /// A `channel_announcement`: 16 `banned` if one of its nodes is, 12 `known` if the channel is in the map with the
    /// same nodes. If it is there with other nodes, the operation is a ban of the nodes of both. A `node_announcement`:
    /// 16 `banned` if the node is, 14 `unknown-node` if the node has no channel in the map, 15 `not-newer` if its
    /// timestamp isn't above the stored one. A `channel_update`: 11 `unknown-channel`, 10 `signature` if it wasn't
    /// signed by the node of its direction, 15 `not-newer` as above (BOLT 7).
    ///
    /// The bytes of the message's row have to encode it, as those of a row from [`precheck`](lgm_check::precheck) do:
    /// the operation stores the bytes alone. Memory is allocated only for the operation: a refusal is returned even if
    /// memory is short.
    pub fn admit(&self, alloc: Global, checked: &Checked) -> Result<Op, Refusal>
        requires { IsSpelled checked.now }
        ensures { Offers result (admitted self.now checked.now) }
    {
        self.verdict(checked)?;
        let message = CheckedMessage::of(alloc, checked)?;
        self.admit_checked(alloc, message)
    }

    /// Whether a message is admitted, or why it isn't, as [`Map::admit`] says. Allocates nothing.
    pub fn verdict(&self, checked: &Checked) -> Result<(), Refusal>
        ensures { result ≡ verdict_of (admitted self.now checked.now) }
    {
        match checked {
            Checked::Channel(row) => match self.admit_channel(row) {
                Ok(_) => Ok(()),
                Err(refusal) => Err(refusal),
            },
            Checked::Update(row, signer) => self.admit_update(row, signer),
            Checked::Node(row) => self.admit_node(row),
        }
    }

    /// The operation of a checked message, as [`Map::admit`] returns it. Memory is allocated only for a ban.
    pub fn admit_checked(&self, alloc: Global, message: CheckedMessage) -> Result<Op, Refusal>
        ensures { Offers result (admitted self.now message) }
    {
        let CheckedMessage { stored } = message;
        match stored {
            StoredMessage::Channel(row) => match self.admit_channel(&row.get().row())? {
                Some(ban) => Ok(Op::Ban(Shared::new(alloc, ban)?)),
                None => Ok(Op::Channel(row)),
            },
            StoredMessage::Update(row, signer) => {
                self.admit_update(&row.get().row(), &signer)?;
                Ok(Op::Update(row))
            }
            StoredMessage::Node(row) => {
                self.admit_node(&row.get().row())?;
                Ok(Op::Node(row))
            }
        }
    }

    /// The operation that closes a channel, or 11 `unknown-channel` if it isn't in the map. Allocates nothing.
    pub fn admit_close(&self, scid: Scid) -> Result<Op, Refusal>
        ensures { result ≡ admitted_close self.now scid }
    {
        match self.channel_info(scid) {
            None => Err(Refusal::UnknownChannel),
            Some(_) => Ok(Op::Close(scid)),
        }
    }

    /// The ban that a channel announcement calls for; none if it adds the channel.
    #[inline(always)]
    pub(crate) fn admit_channel(&self, row: &ChannelRow) -> Result<Option<BanRow>, Refusal>
        ensures { channel_op row.now result ≡ channel_admission self.now.banned
            (channel_of self.now.channels row.now.message.short_channel_id) row.now }
    {
        let (first, second) = (row.node(false), row.node(true));
        if self.parts.banned.contains_either(&first, &second) {
            return Err(Refusal::Banned);
        }
        match self.channel_info(row.scid()) {
            None => Ok(None),
            Some(stored) if *stored.node(false) == first && *stored.node(true) == second => {
                Err(Refusal::Known)
            }
            Some(stored) => Ok(Some(BanRow {
                held1: *stored.node(false),
                held2: *stored.node(true),
                new1: first,
                new2: second,
            })),
        }
    }

    #[inline(always)]
    fn admit_update(&self, row: &UpdateRow, signer: &Point) -> Result<(), Refusal>
        ensures { let id = row.now.message.short_channel_id in
            update_op row.now result ≡ update_admission (channel_of self.now.channels id)
            (update_of self.now.updates id (is_second row.now)) row.now signer.now }
    {
        match self.channel_info(row.scid()) {
            Some(stored) => stored.admit_update(row, signer),
            None => Err(Refusal::UnknownChannel),
        }
    }

    #[inline(always)]
    pub(crate) fn admit_node(&self, row: &NodeRow) -> Result<(), Refusal>
        ensures { let node = row.now.message.node_id in
            node_op row.now result ≡ node_admission (is_banned self.now.banned node)
            (ends_channel self.now.channels node) (node_of self.now.nodes node) row.now }
    {
        let node = row.node();
        if self.banned(&node) {
            return Err(Refusal::Banned);
        }
        if !self.ends_channel(&node) {
            return Err(Refusal::UnknownNode);
        }
        match self.stored_node(&node) {
            Some(stored) if row.message.timestamp <= stored.timestamp() => Err(Refusal::NotNewer),
            _ => Ok(()),
        }
    }
}
