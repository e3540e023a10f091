//! Stored channels.

ghost use Rattle.std.specs.Prelude.{◌≡◌, IfOk, if◌then◌else◌};
ghost use Rattle.lgm_gossip.specs.Message.{Wire};
ghost use Rattle.lgm_gossip.specs.declared.message.Message.TheVariants as messages;
ghost use Rattle.lgm_gossip.specs.Layout.{IsAnnounce};
ghost use Rattle.lgm_check.specs.Row.{channel_row};

use crate::raw::Raw;
use crate::row::ChannelRow;
use lgm_gossip::{Announce, Point, Scid};
use std::alloc::{AllocError, Global};
use std::marker::Model;

/// A channel, as the bytes of its announcement and its capacity. Contracts see the row that they encode.
#[derive(Debug, Drop)]
pub struct StoredChannel {
    sat: u64,
    raw: Raw<432>,
}

impl Model for StoredChannel {
    ghost use Rattle.lgm_check.specs.declared.row.ChannelRow.{ChannelRow};

    ghost Value = { ChannelRow };

    ghost use Rattle.lgm_gossip.specs.Layout.{IsAnnounce};
    ghost use Rattle.lgm_check.specs.Row.{channel_row};

    ghost view = { λ kept. channel_row kept.sat kept.raw };

    ghost invariant = { λ kept. IsAnnounce kept.raw };
}

impl StoredChannel {
    /// Stores a row whose bytes encode its message, by a copy of them.
    pub fn of(alloc: Global, row: &ChannelRow) -> Result<StoredChannel, AllocError>
        requires { Wire (messages.Announce row.now.message) row.now.raw }
        ensures { IfOk result (λ kept. kept ≡ row.now) }
    {
        Ok(StoredChannel {
            sat: row.sat,
            raw: Raw::copied(alloc, row.raw.as_slice())?,
        })
    }

    /// Stores the row that these bytes encode, by a copy of them.
    pub fn of_bytes(alloc: Global, raw: &[u8], sat: u64) -> Result<StoredChannel, AllocError>
        requires { IsAnnounce raw.now }
        ensures { IfOk result (λ kept. kept ≡ channel_row sat raw.now) }
    {
        Ok(StoredChannel {
            sat,
            raw: Raw::copied(alloc, raw)?,
        })
    }

    /// The bytes encode the row. The call does nothing: its contract is the law.
    pub fn bytes_encode_row(&self)
        ensures { Wire (messages.Announce self.now.message) self.now.raw }
    {
        let _ = &self.raw;
    }

    /// The row, read from the bytes. It is compiled into its caller, so a field that isn't used isn't read.
    #[inline(always)]
    pub fn row(&self) -> ChannelRow<'_>
        ensures { result ≡ self.now }
    {
        ChannelRow::in_bytes(self.raw.as_slice(), self.sat)
    }

    /// The whole message as received.
    pub fn raw(&self) -> &[u8]
        ensures { result.now ≡ self.now.raw }
    {
        self.raw.as_slice()
    }

    /// The channel id.
    #[inline(always)]
    pub fn scid(&self) -> Scid
        ensures { result ≡ self.now.message.short_channel_id }
    {
        Announce::in_bytes(self.raw.as_slice()).short_channel_id
    }

    /// Node 2 if `second`, else node 1.
    #[inline(always)]
    pub fn node(&self, second: bool) -> Point
        ensures { result ≡ (if second then self.now.message.node_id_2 else self.now.message.node_id_1) }
    {
        let message = Announce::in_bytes(self.raw.as_slice());
        if second {
            message.node_id_2
        } else {
            message.node_id_1
        }
    }
}
