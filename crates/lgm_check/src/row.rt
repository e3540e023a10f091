//! The rows that messages add to a map.

ghost use Rattle.std.specs.Prelude.{◌≡◌, ◌≤◌, ◌%◌, ◌==◌, length, if◌then◌else◌};
ghost use Rattle.lgm_gossip.specs.reading.AnnounceReading.{announce_len};
ghost use Rattle.lgm_gossip.specs.reading.NodeAnnounceReading.{node_len};
ghost use Rattle.lgm_check.specs.Row.{channel_row, update_row, node_row};

use lgm_gossip::{Announce, BorrowedBytes, ChannelUpdate, NodeAnnounce, Point, Scid};
use std::marker::Model;

/// A channel: its announcement, its capacity, and the bytes to forward.
#[derive(Debug, Drop)]
pub struct ChannelRow<'a> {
    /// The announcement's fields.
    pub message: Announce<'a>,
    /// The capacity, in satoshi.
    pub sat: u64,
    /// The whole message as received.
    pub raw: BorrowedBytes<'a>,
}

impl<'a> ChannelRow<'a> {
    /// The row of the announcement that these bytes encode, with a capacity in satoshi.
    #[inline(always)]
    pub(crate) fn in_bytes(raw: &'a [u8], sat: u64) -> ChannelRow<'a>
        requires { announce_len raw.now ≤ length raw.now }
        ensures { result ≡ channel_row sat raw.now }
    {
        ChannelRow {
            message: Announce::in_bytes(raw),
            sat,
            raw: BorrowedBytes::new(raw),
        }
    }

    /// The channel id.
    pub fn scid(&self) -> Scid
        ensures { result ≡ self.now.message.short_channel_id }
    {
        self.message.short_channel_id
    }

    /// Node 2 if `second`, else node 1.
    pub fn node(&self, second: bool) -> Point
        ensures { result ≡ (if second then self.now.message.node_id_2 else self.now.message.node_id_1) }
    {
        if second {
            self.message.node_id_2
        } else {
            self.message.node_id_1
        }
    }
}

/// A direction of a channel: its update, and the bytes to forward.
#[derive(Debug, Drop)]
pub struct UpdateRow<'a> {
    /// The update's fields.
    pub message: ChannelUpdate<'a>,
    /// The whole message as received.
    pub raw: BorrowedBytes<'a>,
}

impl<'a> UpdateRow<'a> {
    /// The row of the update that these bytes encode.
    #[inline(always)]
    pub(crate) fn in_bytes(raw: &'a [u8]) -> UpdateRow<'a>
        requires { 138 ≤ length raw.now }
        ensures { result ≡ update_row raw.now }
    {
        UpdateRow {
            message: ChannelUpdate::in_bytes(raw),
            raw: BorrowedBytes::new(raw),
        }
    }

    /// The channel id.
    pub fn scid(&self) -> Scid
        ensures { result ≡ self.now.message.short_channel_id }
    {
        self.message.short_channel_id
    }

    /// Whether the direction is from node 2: bit 0 of `channel_flags`.
    pub fn is_second(&self) -> bool
        ensures { result ≡ (self.now.message.channel_flags % 2 == 1) }
    {
        self.message.channel_flags % 2 == 1
    }
}

/// A node: its announcement, and the bytes to forward.
#[derive(Debug, Drop)]
pub struct NodeRow<'a> {
    /// The announcement's fields.
    pub message: NodeAnnounce<'a>,
    /// The whole message as received.
    pub raw: BorrowedBytes<'a>,
}

impl<'a> NodeRow<'a> {
    /// The row of the announcement that these bytes encode.
    #[inline(always)]
    pub(crate) fn in_bytes(raw: &'a [u8]) -> NodeRow<'a>
        requires { node_len raw.now ≤ length raw.now }
        ensures { result ≡ node_row raw.now }
    {
        NodeRow {
            message: NodeAnnounce::in_bytes(raw),
            raw: BorrowedBytes::new(raw),
        }
    }

    /// The node.
    pub fn node(&self) -> Point
        ensures { result ≡ self.now.message.node_id }
    {
        self.message.node_id
    }
}

/// The nodes of two contradicting announcements of one channel id, not necessarily distinct. Both announcements were
/// valid, so all four nodes are banned.
#[derive(Clone, Copy, Debug, PartialEq, Eq)]
pub struct BanRow {
    /// Node 1 of the channel in the map.
    pub held1: Point,
    /// Node 2 of the channel in the map.
    pub held2: Point,
    /// Node 1 of the new announcement.
    pub new1: Point,
    /// Node 2 of the new announcement.
    pub new2: Point,
}

/// A message that passed validation, as the row that it would add.
#[derive(Debug, Drop)]
pub enum Checked<'a> {
    /// Of a `channel_announcement`.
    Channel(ChannelRow<'a>),
    /// Of a `channel_update`, and the point that signed it.
    Update(UpdateRow<'a>, Point),
    /// Of a `node_announcement`.
    Node(NodeRow<'a>),
}

/// The point that signed a message, borrowed from the evidence. Contracts see the point.
#[derive(Debug, Drop)]
pub struct Signer<'a> {
    point: &'a Point,
}

impl<'a> Model for Signer<'a> {
    ghost use Rattle.lgm_wire.specs.declared.point.Point.{Point};

    ghost Value = { Point };

    ghost view = { λ signer. signer.point.now };
}

impl<'a> Signer<'a> {
    pub(crate) fn new(point: &'a Point) -> Signer<'a>
        ensures { result ≡ point.now }
    {
        Signer { point }
    }

    /// The point, with the lifetime of the evidence.
    pub fn point(&self) -> &'a Point
        ensures { result.now ≡ self.now }
    {
        self.point
    }
}

/// The type of a message that passed validation, and what its row has in addition to the bytes.
#[derive(Debug, Drop)]
pub enum CheckedKind<'a> {
    /// Of a `channel_announcement`, and the capacity in satoshi.
    Channel(u64),
    /// Of a `channel_update`, and the point that signed it.
    Update(Signer<'a>),
    /// Of a `node_announcement`.
    Node,
}
