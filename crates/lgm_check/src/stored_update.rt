//! Stored updates.

ghost use Rattle.std.specs.Prelude.{◌≡◌, ◌%◌, ◌==◌, IfOk};
ghost use Rattle.lgm_gossip.specs.Message.{Wire};
ghost use Rattle.lgm_gossip.specs.declared.message.Message.TheVariants as messages;
ghost use Rattle.lgm_gossip.specs.Layout.{IsUpdate};
ghost use Rattle.lgm_check.specs.Row.{update_row};

use crate::raw::Raw;
use crate::row::UpdateRow;
use lgm_gossip::{ChannelUpdate, Scid};
use std::alloc::{AllocError, Global};
use std::marker::Model;

/// An update of a direction, as its bytes. Contracts see the row that they encode.
#[derive(Debug, Drop)]
pub struct StoredUpdate {
    raw: Raw<138>,
}

impl Model for StoredUpdate {
    ghost use Rattle.lgm_check.specs.declared.row.UpdateRow.{UpdateRow};

    ghost Value = { UpdateRow };

    ghost use Rattle.lgm_gossip.specs.Layout.{IsUpdate};
    ghost use Rattle.lgm_check.specs.Row.{update_row};

    ghost view = { λ kept. update_row kept.raw };

    ghost invariant = { λ kept. IsUpdate kept.raw };
}

impl StoredUpdate {
    /// Stores a row whose bytes encode its message, by a copy of them.
    pub fn of(alloc: Global, row: &UpdateRow) -> Result<StoredUpdate, AllocError>
        requires { Wire (messages.ChannelUpdate row.now.message) row.now.raw }
        ensures { IfOk result (λ kept. kept ≡ row.now) }
    {
        Ok(StoredUpdate {
            raw: Raw::copied(alloc, row.raw.as_slice())?,
        })
    }

    /// Stores the row that these bytes encode, by a copy of them.
    pub fn of_bytes(alloc: Global, raw: &[u8]) -> Result<StoredUpdate, AllocError>
        requires { IsUpdate raw.now }
        ensures { IfOk result (λ kept. kept ≡ update_row raw.now) }
    {
        Ok(StoredUpdate {
            raw: Raw::copied(alloc, raw)?,
        })
    }

    /// The bytes encode the row. The call does nothing: its contract is the law.
    pub fn bytes_encode_row(&self)
        ensures { Wire (messages.ChannelUpdate self.now.message) self.now.raw }
    {
        let _ = &self.raw;
    }

    /// The row, read from the bytes. It is compiled into its caller, so a field that isn't used isn't read.
    #[inline(always)]
    pub fn row(&self) -> UpdateRow<'_>
        ensures { result ≡ self.now }
    {
        UpdateRow::in_bytes(self.raw.as_slice())
    }

    /// The whole message as received.
    pub fn raw(&self) -> &[u8]
        ensures { result.now ≡ self.now.raw }
    {
        self.raw.as_slice()
    }

    /// The channel id.
    #[inline(always)]
    pub fn scid(&self) -> Scid
        ensures { result ≡ self.now.message.short_channel_id }
    {
        ChannelUpdate::in_bytes(self.raw.as_slice()).short_channel_id
    }

    /// The timestamp, in seconds since 1970.
    #[inline(always)]
    pub fn timestamp(&self) -> u32
        ensures { result ≡ self.now.message.timestamp }
    {
        ChannelUpdate::in_bytes(self.raw.as_slice()).timestamp
    }

    /// Whether the direction is from node 2: bit 0 of `channel_flags`.
    #[inline(always)]
    pub fn is_second(&self) -> bool
        ensures { result ≡ (self.now.message.channel_flags % 2 == 1) }
    {
        ChannelUpdate::in_bytes(self.raw.as_slice()).channel_flags % 2 == 1
    }
}
