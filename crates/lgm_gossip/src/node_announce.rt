//! `node_announcement`.

ghost use Rattle.std.specs.Prelude.{◌≡◌, ◌+◌, ◌≤◌, length, nat_le};
ghost use Rattle.lgm_wire.specs.reading.Reading.{Sees};

use crate::borrowed::{BorrowedBytes, Signature};
use crate::encode_fault::EncodeFault;
use crate::fault::DecodeFault;
use crate::places::{array, borrowed, number16, number32, point, rest, signature};
use crate::segment::{Segment, encoded_len, join, whole};
use crate::sequence::Bytes;
use lgm_wire::Point;
use std::alloc::Global;

/// A `node_announcement`, type 257: a node's alias, features and addresses (BOLT 7, "The node_announcement Message").
#[derive(Debug, Drop)]
pub struct NodeAnnounce<'a> {
    /// The signature of the node.
    pub signature: Signature<'a>,
    /// Feature bits, numbered from the least significant bit of the last byte.
    pub features: BorrowedBytes<'a>,
    /// Seconds since 1970. Of two announcements of a node the one with the greater timestamp applies.
    pub timestamp: u32,
    /// The announced node, which signs.
    pub node_id: Point,
    /// Red, green and blue.
    pub rgb_color: [u8; 3],
    /// The node's alias, UTF-8 padded with zeros, as received.
    pub alias: [u8; 32],
    /// Address descriptors, as received: [`addresses`](crate::addresses) parses them.
    pub addresses: BorrowedBytes<'a>,
    /// Trailing bytes, kept so that the message can be forwarded unchanged.
    pub rest: BorrowedBytes<'a>,
}

impl<'a> NodeAnnounce<'a> {
    ghost use Rattle.lgm_gossip.specs.NodeAnnounce.{fields};
    ghost use Rattle.lgm_gossip.specs.reading.NodeAnnounceReading.{features_len, addresses_len, node_len, node_in, node_announce_at};
    ghost use Rattle.lgm_gossip.specs.Spelling.{Encodes};

    /// The same message, borrowed again.
    pub fn reborrow(&self) -> NodeAnnounce<'a>
        ensures { result ≡ self.now }
    {
        NodeAnnounce {
            signature: self.signature.reborrow(),
            features: self.features.reborrow(),
            addresses: self.addresses.reborrow(),
            rest: self.rest.reborrow(),
            ..*self
        }
    }

    /// The length of the features, by which the fields behind them are shifted.
    #[inline(always)]
    fn features_len(raw: &[u8]) -> usize
        requires { 68 ≤ length raw.now }
        ensures { result ≡ features_len raw.now }
    {
        usize::from(number16(raw, 66))
    }

    /// The length of the addresses after `n` bytes of features.
    #[inline(always)]
    fn addresses_len(raw: &[u8], n: usize) -> usize
        requires { 142 + n ≤ length raw.now }
        ensures { result ≡ addresses_len n raw.now }
    {
        usize::from(number16(raw, 140 + n))
    }

    /// Whether bytes, beginning with the two of the type, are as long as all fields.
    #[inline(always)]
    pub fn is_long_enough(raw: &[u8]) -> bool
        ensures { result ≡ nat_le (node_len raw.now) (length raw.now) }
    {
        if raw.len() < 142 {
            return false;
        }
        let n = NodeAnnounce::features_len(raw);
        raw.len() - 142 >= n && raw.len() - 142 - n >= NodeAnnounce::addresses_len(raw, n)
    }

    /// The announcement that these bytes encode, which begin with the two of the type: each field is read at its
    /// offset. It is compiled into its caller, so a field that isn't used isn't read.
    #[inline(always)]
    pub fn in_bytes(raw: &'a [u8]) -> NodeAnnounce<'a>
        requires { node_len raw.now ≤ length raw.now }
        ensures { result ≡ node_in raw.now }
    {
        let n = NodeAnnounce::features_len(raw);
        let k = NodeAnnounce::addresses_len(raw, n);
        NodeAnnounce {
            signature: signature(raw, 2),
            features: borrowed(raw, 68, n),
            timestamp: number32(raw, 68 + n),
            node_id: point(raw, 72 + n),
            rgb_color: array(raw, 105 + n),
            alias: array(raw, 108 + n),
            addresses: borrowed(raw, 142 + n, k),
            rest: rest(raw, 142 + n + k),
        }
    }

    /// The announcement that these bytes encode, or `Cut` if they aren't long enough.
    #[tactic(auto, unfolding(crate::specs::reading::NodeAnnounceReading::node_announce_at))]
    pub(crate) fn read(raw: &'a [u8]) -> Result<NodeAnnounce<'a>, DecodeFault>
        ensures { Sees (λ m. m) result (node_announce_at raw.now) }
    {
        if NodeAnnounce::is_long_enough(raw) {
            Ok(NodeAnnounce::in_bytes(raw))
        } else {
            Err(DecodeFault::Cut)
        }
    }

    /// The encoding, beginning with the two bytes of the type.
    pub(crate) fn encode(&self, alloc: Global) -> Result<Bytes, EncodeFault>
        ensures { Encodes 257 (fields self.now) result }
    {
        let features = Segment::Bytes(self.features.as_slice());
        let features_len = encoded_len(&[features])?;
        let addresses = Segment::Bytes(self.addresses.as_slice());
        let addresses_len = encoded_len(&[addresses])?;
        join(
            alloc,
            &[
                Segment::Number16(257),
                self.signature.segment(),
                Segment::Number16(features_len),
                features,
                Segment::Number32(self.timestamp),
                whole(&self.node_id.0),
                whole(&self.rgb_color),
                whole(&self.alias),
                Segment::Number16(addresses_len),
                addresses,
                Segment::Bytes(self.rest.as_slice()),
            ],
        )
    }
}
