//! Items that are admitted and applied at once.

ghost use Rattle.std.specs.Prelude.{◌≡◌, IfOk, OnErr};
ghost use Rattle.lgm_store.specs.Rows.{channel_of, update_of, node_of, ends_channel, is_banned, is_second};
ghost use Rattle.lgm_store.specs.Admission.{channel_admission, update_admission};
ghost use Rattle.lgm_store.specs.Admission.{node_admission, admitted, admitted_close, Offers};
ghost use Rattle.lgm_store.specs.History.{absorbed};

use super::Map;
use crate::checked_message::{CheckedMessage, StoredMessage};
use crate::lookahead::lookup::Hint;
use crate::op::Op;
use crate::shared::Shared;
use lgm_check::{Refusal, StoredChannel, StoredNode, StoredUpdate};
use lgm_gossip::{Point, Scid};
use std::alloc::Global;

impl Map {
    /// Admits a checked message and applies its operation, which is returned. Memory is allocated only for the map's
    /// index, and for a ban: the row itself is stored already.
    ///
    /// A refusal or out of memory leaves the map unchanged. A refused message is refused even if memory is short.
    pub fn offer_checked(&mut self, alloc: Global, message: CheckedMessage) -> Result<Op, Refusal>
        ensures admission { Offers result (admitted self.old message) }
        ensures accepted { IfOk result (λ op. self.new ≡ absorbed self.old op) }
        ensures refused { OnErr result (self.new ≡ self.old) }
    {
        self.offer_at(alloc, message, Hint::none())
    }

    /// Like [`Map::offer_checked`], but looks for an update's channel at a hint first, which is faster if it is right.
    ///
    /// It is compiled into its caller: a message that is handed over as a copy is read too soon after it was written.
    #[inline(always)]
    pub fn offer_at(
        &mut self,
        alloc: Global,
        message: CheckedMessage,
        hint: Hint,
    ) -> Result<Op, Refusal>
        ensures admission { Offers result (admitted self.old message) }
        ensures accepted { IfOk result (λ op. self.new ≡ absorbed self.old op) }
        ensures refused { OnErr result (self.new ≡ self.old) }
    {
        let CheckedMessage { stored } = message;
        match stored {
            StoredMessage::Channel(row) => self.offer_channel(alloc, row),
            StoredMessage::Update(row, signer) => self.offer_update(row, &signer, hint),
            StoredMessage::Node(row) => self.offer_node(row),
        }
    }

    /// Closes a channel, and returns the operation. It allocates nothing.
    ///
    /// The only refusal is 11 `unknown-channel`, which leaves the map unchanged.
    pub fn offer_close(&mut self, scid: Scid) -> Result<Op, Refusal>
        ensures admission { result ≡ admitted_close self.old scid }
        ensures accepted { IfOk result (λ op. self.new ≡ absorbed self.old op) }
        ensures refused { OnErr result (self.new ≡ self.old) }
    {
        let close = self.admit_close(scid)?;
        self.close(scid);
        Ok(close)
    }

    fn offer_channel(&mut self, alloc: Global, row: Shared<StoredChannel>) -> Result<Op, Refusal>
        ensures admission { Offers result (channel_admission self.old.banned
            (channel_of self.old.channels row.message.short_channel_id) row) }
        ensures accepted { IfOk result (λ op. self.new ≡ absorbed self.old op) }
        ensures refused { OnErr result (self.new ≡ self.old) }
    {
        let added = self.add_channel(&row);
        if let Ok(true) = added {
            return Ok(Op::Channel(row));
        }
        // It is refused, or calls for a ban, or memory is short.
        let Some(ban) = self.admit_channel(&row.get().row())? else {
            added?;
            unreachable!();
        };
        let ban = Shared::new(alloc, ban)?;
        self.ban(ban.get())?;
        Ok(Op::Ban(ban))
    }

    #[inline(always)]
    fn offer_update(
        &mut self,
        row: Shared<StoredUpdate>,
        signer: &Point,
        hint: Hint,
    ) -> Result<Op, Refusal>
        ensures admission { let id = row.message.short_channel_id in
            Offers result (update_admission (channel_of self.old.channels id)
            (update_of self.old.updates id (is_second row)) row signer.now) }
        ensures accepted { IfOk result (λ op. self.new ≡ absorbed self.old op) }
        ensures refused { OnErr result (self.new ≡ self.old) }
    {
        row.get().bytes_encode_row();
        match self.parts.channels.offer_update(&row, signer, hint) {
            Ok(()) => Ok(Op::Update(row)),
            Err(refusal) => Err(refusal),
        }
    }

    fn offer_node(&mut self, row: Shared<StoredNode>) -> Result<Op, Refusal>
        ensures admission { let node = row.message.node_id in
            Offers result (node_admission (is_banned self.old.banned node)
            (ends_channel self.old.channels node) (node_of self.old.nodes node) row) }
        ensures accepted { IfOk result (λ op. self.new ≡ absorbed self.old op) }
        ensures refused { OnErr result (self.new ≡ self.old) }
    {
        let added = self.add_node(&row);
        if let Ok(true) = added {
            return Ok(Op::Node(row));
        }
        // It is refused, or memory is short.
        self.admit_node(&row.get().row())?;
        added?;
        unreachable!()
    }
}
