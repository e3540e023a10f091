//! Stored node announcements.

ghost use Rattle.std.specs.Prelude.{◌≡◌, IfOk};
ghost use Rattle.lgm_gossip.specs.Message.{Wire};
ghost use Rattle.lgm_gossip.specs.declared.message.Message.TheVariants as messages;
ghost use Rattle.lgm_gossip.specs.Layout.{IsNodeAnnounce};
ghost use Rattle.lgm_check.specs.Row.{node_row};

use crate::row::NodeRow;
use lgm_gossip::{Bytes, NodeAnnounce, Point};
use std::alloc::{AllocError, Global};
use std::marker::Model;

/// A node, as the bytes of its announcement. Contracts see the row that they encode.
#[derive(Debug, Drop)]
pub struct StoredNode {
    raw: Bytes,
}

impl Model for StoredNode {
    ghost use Rattle.lgm_check.specs.declared.row.NodeRow.{NodeRow};

    ghost Value = { NodeRow };

    ghost use Rattle.lgm_gossip.specs.Layout.{IsNodeAnnounce};
    ghost use Rattle.lgm_check.specs.Row.{node_row};

    ghost view = { λ kept. node_row kept.raw };

    ghost invariant = { λ kept. IsNodeAnnounce kept.raw };
}

impl StoredNode {
    /// Stores a row whose bytes encode its message, by a copy of them.
    pub fn of(alloc: Global, row: &NodeRow) -> Result<StoredNode, AllocError>
        requires { Wire (messages.NodeAnnounce row.now.message) row.now.raw }
        ensures { IfOk result (λ kept. kept ≡ row.now) }
    {
        Ok(StoredNode {
            raw: Bytes::from_slice(alloc, row.raw.as_slice())?,
        })
    }

    /// Stores the row that these bytes encode, by a copy of them.
    pub fn of_bytes(alloc: Global, raw: &[u8]) -> Result<StoredNode, AllocError>
        requires { IsNodeAnnounce raw.now }
        ensures { IfOk result (λ kept. kept ≡ node_row raw.now) }
    {
        Ok(StoredNode {
            raw: Bytes::from_slice(alloc, raw)?,
        })
    }

    /// The bytes encode the row. The call does nothing: its contract is the law.
    pub fn bytes_encode_row(&self)
        ensures { Wire (messages.NodeAnnounce self.now.message) self.now.raw }
    {
        let _ = &self.raw;
    }

    /// The row, read from the bytes. It is compiled into its caller, so a field that isn't used isn't read.
    #[inline(always)]
    pub fn row(&self) -> NodeRow<'_>
        ensures { result ≡ self.now }
    {
        NodeRow::in_bytes(self.raw.as_slice())
    }

    /// The whole message as received.
    pub fn raw(&self) -> &[u8]
        ensures { result.now ≡ self.now.raw }
    {
        self.raw.as_slice()
    }

    /// The timestamp, in seconds since 1970.
    #[inline(always)]
    pub fn timestamp(&self) -> u32
        ensures { result ≡ self.now.message.timestamp }
    {
        NodeAnnounce::in_bytes(self.raw.as_slice()).timestamp
    }

    /// The node.
    #[inline(always)]
    pub fn node(&self) -> Point
        ensures { result ≡ self.now.message.node_id }
    {
        NodeAnnounce::in_bytes(self.raw.as_slice()).node_id
    }
}
