//! `channel_announcement`.

ghost use Rattle.std.specs.Prelude.{◌≡◌, ◌≤◌, length, nat_le};
ghost use Rattle.lgm_wire.specs.reading.Reading.{Sees};

use crate::borrowed::{BorrowedBytes, Signature};
use crate::encode_fault::EncodeFault;
use crate::fault::DecodeFault;
use crate::places::{array, borrowed, number16, number64, point, rest, signature};
use crate::segment::{Segment, encoded_len, join, whole};
use crate::sequence::Bytes;
use lgm_wire::{ChainHash, Point, Scid};
use std::alloc::Global;

/// A `channel_announcement`, type 256: two nodes prove by four signatures that an output of the chain funds a channel
/// between them (BOLT 7, "The channel_announcement Message").
#[derive(Debug, Drop)]
pub struct Announce<'a> {
    /// The signature of node 1, 64 bytes like the other three.
    pub node_signature_1: Signature<'a>,
    /// The signature of node 2.
    pub node_signature_2: Signature<'a>,
    /// The signature by the first bitcoin key.
    pub bitcoin_signature_1: Signature<'a>,
    /// The signature by the second bitcoin key.
    pub bitcoin_signature_2: Signature<'a>,
    /// Feature bits, numbered from the least significant bit of the last byte.
    pub features: BorrowedBytes<'a>,
    /// The chain of the funding output.
    pub chain_hash: ChainHash,
    /// The channel id: the position of the funding output in the chain.
    pub short_channel_id: Scid,
    /// In a valid message, the lesser node id in byte order.
    pub node_id_1: Point,
    /// The greater node id.
    pub node_id_2: Point,
    /// Node 1's key of the 2-of-2 funding output.
    pub bitcoin_key_1: Point,
    /// Node 2's key of the 2-of-2 funding output.
    pub bitcoin_key_2: Point,
    /// Trailing bytes, kept so that the message can be forwarded unchanged.
    pub rest: BorrowedBytes<'a>,
}

impl<'a> Announce<'a> {
    ghost use Rattle.lgm_gossip.specs.Announce.{fields};
    ghost use Rattle.lgm_gossip.specs.reading.AnnounceReading.{features_len, announce_len, announce_in, announce_at};
    ghost use Rattle.lgm_gossip.specs.Spelling.{Encodes};

    /// The same message, borrowed again.
    pub fn reborrow(&self) -> Announce<'a>
        ensures { result ≡ self.now }
    {
        Announce {
            node_signature_1: self.node_signature_1.reborrow(),
            node_signature_2: self.node_signature_2.reborrow(),
            bitcoin_signature_1: self.bitcoin_signature_1.reborrow(),
            bitcoin_signature_2: self.bitcoin_signature_2.reborrow(),
            features: self.features.reborrow(),
            rest: self.rest.reborrow(),
            ..*self
        }
    }

    /// The length of the features, by which the fields behind them are shifted.
    #[inline(always)]
    fn features_len(raw: &[u8]) -> usize
        requires { 260 ≤ length raw.now }
        ensures { result ≡ features_len raw.now }
    {
        usize::from(number16(raw, 258))
    }

    /// Whether bytes, beginning with the two of the type, are as long as all fields.
    #[inline(always)]
    pub fn is_long_enough(raw: &[u8]) -> bool
        ensures { result ≡ nat_le (announce_len raw.now) (length raw.now) }
    {
        raw.len() >= 432 && raw.len() - 432 >= Announce::features_len(raw)
    }

    /// The announcement that these bytes encode, which begin with the two of the type: each field is read at its
    /// offset. It is compiled into its caller, so a field that isn't used isn't read.
    #[inline(always)]
    pub fn in_bytes(raw: &'a [u8]) -> Announce<'a>
        requires { announce_len raw.now ≤ length raw.now }
        ensures { result ≡ announce_in raw.now }
    {
        let n = Announce::features_len(raw);
        Announce {
            node_signature_1: signature(raw, 2),
            node_signature_2: signature(raw, 66),
            bitcoin_signature_1: signature(raw, 130),
            bitcoin_signature_2: signature(raw, 194),
            features: borrowed(raw, 260, n),
            chain_hash: ChainHash(array(raw, 260 + n)),
            short_channel_id: Scid::from_u64(number64(raw, 292 + n)),
            node_id_1: point(raw, 300 + n),
            node_id_2: point(raw, 333 + n),
            bitcoin_key_1: point(raw, 366 + n),
            bitcoin_key_2: point(raw, 399 + n),
            rest: rest(raw, 432 + n),
        }
    }

    /// The announcement that these bytes encode, or `Cut` if they aren't long enough.
    #[tactic(auto, unfolding(crate::specs::reading::AnnounceReading::announce_at))]
    pub(crate) fn read(raw: &'a [u8]) -> Result<Announce<'a>, DecodeFault>
        ensures { Sees (λ m. m) result (announce_at raw.now) }
    {
        if Announce::is_long_enough(raw) {
            Ok(Announce::in_bytes(raw))
        } else {
            Err(DecodeFault::Cut)
        }
    }

    /// The encoding, beginning with the two bytes of the type.
    pub(crate) fn encode(&self, alloc: Global) -> Result<Bytes, EncodeFault>
        ensures { Encodes 256 (fields self.now) result }
    {
        let features = Segment::Bytes(self.features.as_slice());
        let features_len = encoded_len(&[features])?;
        join(
            alloc,
            &[
                Segment::Number16(256),
                self.node_signature_1.segment(),
                self.node_signature_2.segment(),
                self.bitcoin_signature_1.segment(),
                self.bitcoin_signature_2.segment(),
                Segment::Number16(features_len),
                features,
                whole(&self.chain_hash.0),
                Segment::Number64(self.short_channel_id.to_u64()),
                whole(&self.node_id_1.0),
                whole(&self.node_id_2.0),
                whole(&self.bitcoin_key_1.0),
                whole(&self.bitcoin_key_2.0),
                Segment::Bytes(self.rest.as_slice()),
            ],
        )
    }
}
