//! A channel with its updates.

ghost use Rattle.std.specs.Prelude.{◌≡◌, Some, None, IfOk, OnOk, OnErr, if◌then◌else◌};
ghost use Rattle.std.specs.Option.{option_copied, option_map};
ghost use Rattle.lgm_store.specs.inner.ChannelEntries.{alone, with_update_in};
ghost use Rattle.lgm_store.specs.ChannelInfo.{update_in, timestamps_in};
ghost use Rattle.lgm_store.specs.ChannelWithUpdates.{timestamp_of};
ghost use Rattle.lgm_store.specs.Rows.{is_second};
ghost use Rattle.lgm_store.specs.Admission.{update_admission, Offers};
ghost use Rattle.lgm_store.specs.inner.Decided.{update_op};

use crate::shared::Shared;
use lgm_check::{ChannelRow, Refusal, StoredChannel, StoredUpdate, UpdateRow};
use lgm_gossip::{Point, Scid, Timestamps};
use std::alloc::AllocError;
use std::marker::Model;

/// A channel with the update of each direction that has one. Contracts see the rows.
///
/// What iteration and admission read is stored inline, outside the rows. What iteration reads is in front, so that it is
/// mostly in one block of memory.
#[derive(Drop)]
pub struct ChannelInfo {
    scid: Scid,
    /// The timestamp of the update from node 1, in seconds since 1970, or 0 without one.
    first_time: u32,
    /// The same of the update from node 2.
    second_time: u32,
    row: Shared<StoredChannel>,
    /// The update from node 1, if there is one.
    first: Option<Shared<StoredUpdate>>,
    /// The update from node 2, if there is one.
    second: Option<Shared<StoredUpdate>>,
    node_1: Point,
    node_2: Point,
}

impl Model for ChannelInfo {
    ghost use Rattle.std.specs.Prelude.{◌≡◌};
    ghost use Rattle.lgm_store.specs.ChannelWithUpdates.{ChannelWithUpdates};

    ghost Value = { ChannelWithUpdates };

    ghost view = { λ h. record { channel = h.row; first = h.first; second = h.second } };

    ghost use Rattle.lgm_store.specs.ChannelWithUpdates.{timestamp_of};

    ghost invariant = { λ h. record {
      scid_is : h.scid ≡ h.row.message.short_channel_id;
      first_time_is : h.first_time ≡ timestamp_of h.first;
      second_time_is : h.second_time ≡ timestamp_of h.second;
      node_1_is : h.node_1 ≡ h.row.message.node_id_1;
      node_2_is : h.node_2 ≡ h.row.message.node_id_2;
    } };
}

impl ChannelInfo {
    /// A channel without updates.
    pub(crate) fn new(row: Shared<StoredChannel>) -> ChannelInfo
        ensures { result ≡ alone row }
    {
        let lent = row.get().row();
        let scid = lent.message.short_channel_id;
        let (node_1, node_2) = (lent.message.node_id_1, lent.message.node_id_2);
        ChannelInfo {
            scid,
            first_time: 0,
            second_time: 0,
            row,
            first: None,
            second: None,
            node_1,
            node_2,
        }
    }

    /// The channel's row. It is compiled into its caller, so a field that isn't used isn't read.
    #[inline(always)]
    pub fn row(&self) -> ChannelRow<'_>
        ensures { result ≡ self.now.channel }
    {
        self.row.get().row()
    }

    /// The bytes of the channel's announcement, as received.
    pub fn raw(&self) -> &[u8]
        ensures { result.now ≡ self.now.channel.raw }
    {
        self.row.get().raw()
    }

    /// The channel id, read without following the row.
    pub fn scid(&self) -> Scid
        ensures { result ≡ self.now.channel.message.short_channel_id }
    {
        self.scid
    }

    /// Node 2 if `second`, else node 1; read without following the row.
    pub fn node(&self, second: bool) -> &Point
        ensures { result.now
            ≡ (if second then self.now.channel.message.node_id_2 else self.now.channel.message.node_id_1) }
    {
        if second { &self.node_2 } else { &self.node_1 }
    }

    /// The row of the update from node 2 if `second`, else from node 1; none if that direction has no update. It is
    /// compiled into its caller as the channel's is.
    #[inline(always)]
    pub fn update(&self, second: bool) -> Option<UpdateRow<'_>>
        ensures { result ≡ update_in second self.now }
    {
        match self.stored_update(second) {
            Some(row) => Some(row.get().row()),
            None => None,
        }
    }

    /// The bytes of that update, as received.
    pub fn update_raw(&self, second: bool) -> Option<&[u8]>
        ensures { option_copied result ≡ option_map (λ row. row.raw) (update_in second self.now) }
    {
        match self.stored_update(second) {
            Some(row) => Some(row.get().raw()),
            None => None,
        }
    }

    /// The timestamp of that update, in seconds since 1970, read without following the update's row.
    pub fn update_time(&self, second: bool) -> Option<u32>
        ensures { result ≡ option_map (λ row. row.message.timestamp) (update_in second self.now) }
    {
        match self.stored_update(second) {
            Some(_) => Some(self.time(second)),
            None => None,
        }
    }

    /// The timestamps of its updates, in seconds since 1970, each 0 if there is no update; read without following a row.
    pub fn timestamps(&self) -> Timestamps
        ensures { result ≡ timestamps_in self.now }
    {
        Timestamps {
            node_1: self.first_time,
            node_2: self.second_time,
        }
    }

    /// What an iteration reads first here, put together.
    pub(crate) fn inline_word(&self) -> u32 {
        self.first_time ^ self.second_time
    }

    /// Reads the beginning of each row, so that the processor's cache has it.
    pub(crate) fn prefetch(&self) {
        self.row.prefetch();
        prefetch(&self.first);
        prefetch(&self.second);
    }

    #[inline(always)]
    fn time(&self, second: bool) -> u32
        ensures { result ≡ timestamp_of (update_in second self.now) }
    {
        if second {
            self.second_time
        } else {
            self.first_time
        }
    }

    #[inline(always)]
    fn stored_update(&self, second: bool) -> &Option<Shared<StoredUpdate>>
        ensures { result.now ≡ update_in second self.now }
    {
        if second { &self.second } else { &self.first }
    }

    /// Whether this is the channel with an id, by what is first and what is last in memory of what the admission of an
    /// update compares. No contract depends on it.
    pub(crate) fn is_likely(&self, scid: Scid, second: bool) -> bool {
        let has_own_time = self.stored_update(second).is_some() | (self.time(second) == 0);
        (self.scid == scid) & self.node(second).lawful() & has_own_time
    }

    /// Whether an update with this signer is admitted, or else why not: 10 `signature`, 15 `not-newer`.
    #[inline(always)]
    pub(crate) fn admit_update(&self, row: &UpdateRow, signer: &Point) -> Result<(), Refusal>
        ensures { update_op row.now result ≡ update_admission (Some self.now.channel)
            (update_in (is_second row.now) self.now) row.now signer.now }
    {
        let second = row.is_second();
        if *signer != *self.node(second) {
            return Err(Refusal::Signature);
        }
        match self.update_time(second) {
            Some(stored) if stored >= row.message.timestamp => Err(Refusal::NotNewer),
            _ => Ok(()),
        }
    }

    /// Stores an update if it is admitted, sharing its row. A refusal leaves the channel unchanged.
    pub(crate) fn offer_update(
        &mut self,
        row: &Shared<StoredUpdate>,
        signer: &Point,
    ) -> Result<(), Refusal>
        ensures admission { Offers (update_op row.now result) (update_admission (Some self.old.channel)
            (update_in (is_second row.now) self.old) row.now signer.now) }
        ensures accepted { OnOk result (self.new ≡ with_update_in (is_second row.now) self.old row.now) }
        ensures refused { OnErr result (self.new ≡ self.old) }
        ensures channel { self.new.channel ≡ self.old.channel }
    {
        self.admit_update(&row.get().row(), signer)?;
        self.put_update(row.get().is_second(), row.share()?);
        Ok(())
    }

    /// Replaces the update from node 2 if `second`, else that from node 1.
    pub(crate) fn put_update(&mut self, second: bool, row: Shared<StoredUpdate>)
        ensures { self.new ≡ with_update_in second self.old row }
    {
        let time = row.get().timestamp();
        if second {
            self.second_time = time;
            self.second = Some(row);
        } else {
            self.first_time = time;
            self.first = Some(row);
        }
    }
}

impl Clone for ChannelInfo {
    ghost is_clone = { λ stored copy. copy ≡ stored };

    fn clone(&self) -> Result<ChannelInfo, AllocError> {
        // Each row gets one owner more, one after the other, so they are read together first.
        self.prefetch();
        Ok(ChannelInfo {
            scid: self.scid,
            first_time: self.first_time,
            second_time: self.second_time,
            row: self.row.share()?,
            first: copied(&self.first)?,
            second: copied(&self.second)?,
            node_1: self.node_1,
            node_2: self.node_2,
        })
    }
}

/// A shared copy of an update, if there is one.
fn copied(row: &Option<Shared<StoredUpdate>>) -> Result<Option<Shared<StoredUpdate>>, AllocError>
    ensures { IfOk result (λ copy. copy ≡ row.now) }
{
    match row {
        Some(row) => Ok(Some(row.share()?)),
        None => Ok(None),
    }
}

/// Reads the beginning of an update's row, if there is one.
fn prefetch(row: &Option<Shared<StoredUpdate>>) {
    if let Some(row) = row {
        row.prefetch();
    }
}
