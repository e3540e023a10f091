//! `channel_update`.

ghost use Rattle.std.specs.Prelude.{◌≡◌, ◌≤◌, length, nat_le};
ghost use Rattle.lgm_wire.specs.reading.Reading.{Sees};

use crate::borrowed::{BorrowedBytes, Signature};
use crate::encode_fault::EncodeFault;
use crate::fault::DecodeFault;
use crate::places::{array, number8, number16, number32, number64, rest, signature};
use crate::segment::{Segment, join, whole};
use crate::sequence::Bytes;
use lgm_wire::{ChainHash, Scid};
use std::alloc::Global;

/// A `channel_update`, type 258: the terms on which one end of a channel forwards to the other end (BOLT 7, "The
/// channel_update Message").
#[derive(Debug, Drop)]
pub struct ChannelUpdate<'a> {
    /// The signature of the end that forwards.
    pub signature: Signature<'a>,
    /// The chain of the funding output.
    pub chain_hash: ChainHash,
    /// The channel id.
    pub short_channel_id: Scid,
    /// Seconds since 1970. Of two updates of a direction the one with the greater timestamp applies.
    pub timestamp: u32,
    /// Bit 1 is `dont_forward`. Other bits are ignored: bit 0, which senders set, says that there is an
    /// `htlc_maximum_msat`, which is always read.
    pub message_flags: u8,
    /// Bit 0 is the direction: 0 from node 1, 1 from node 2. Bit 1 disables the direction.
    pub channel_flags: u8,
    /// The blocks that are subtracted from the expiry of an HTLC when it is forwarded.
    pub cltv_expiry_delta: u16,
    /// The least amount that is forwarded, in msat.
    pub htlc_minimum_msat: u64,
    /// The base fee, in msat.
    pub fee_base_msat: u32,
    /// The proportional fee, in millionths of the amount (ppm).
    pub fee_proportional_millionths: u32,
    /// The greatest amount that is forwarded, in msat.
    pub htlc_maximum_msat: u64,
    /// Trailing bytes, kept so that the message can be forwarded unchanged.
    pub rest: BorrowedBytes<'a>,
}

impl<'a> ChannelUpdate<'a> {
    ghost use Rattle.lgm_gossip.specs.ChannelUpdate.{fields};
    ghost use Rattle.lgm_gossip.specs.reading.ChannelUpdateReading.{update_in, channel_update_at};
    ghost use Rattle.lgm_gossip.specs.Spelling.{Encodes};

    /// The same message, borrowed again.
    pub fn reborrow(&self) -> ChannelUpdate<'a>
        ensures { result ≡ self.now }
    {
        ChannelUpdate {
            signature: self.signature.reborrow(),
            rest: self.rest.reborrow(),
            ..*self
        }
    }

    /// Whether bytes, beginning with the two of the type, are as long as all fields.
    #[inline(always)]
    pub fn is_long_enough(raw: &[u8]) -> bool
        ensures { result ≡ nat_le 138 (length raw.now) }
    {
        raw.len() >= 138
    }

    /// The update that these bytes encode, which begin with the two of the type: each field is read at its offset. It
    /// is compiled into its caller, so a field that isn't used isn't read.
    #[inline(always)]
    pub fn in_bytes(raw: &'a [u8]) -> ChannelUpdate<'a>
        requires { 138 ≤ length raw.now }
        ensures { result ≡ update_in raw.now }
    {
        ChannelUpdate {
            signature: signature(raw, 2),
            chain_hash: ChainHash(array(raw, 66)),
            short_channel_id: Scid::from_u64(number64(raw, 98)),
            timestamp: number32(raw, 106),
            message_flags: number8(raw, 110),
            channel_flags: number8(raw, 111),
            cltv_expiry_delta: number16(raw, 112),
            htlc_minimum_msat: number64(raw, 114),
            fee_base_msat: number32(raw, 122),
            fee_proportional_millionths: number32(raw, 126),
            htlc_maximum_msat: number64(raw, 130),
            rest: rest(raw, 138),
        }
    }

    /// The update that these bytes encode, or `Cut` if they aren't long enough.
    #[tactic(auto, unfolding(crate::specs::reading::ChannelUpdateReading::channel_update_at))]
    pub(crate) fn read(raw: &'a [u8]) -> Result<ChannelUpdate<'a>, DecodeFault>
        ensures { Sees (λ m. m) result (channel_update_at raw.now) }
    {
        if ChannelUpdate::is_long_enough(raw) {
            Ok(ChannelUpdate::in_bytes(raw))
        } else {
            Err(DecodeFault::Cut)
        }
    }

    /// The encoding, beginning with the two bytes of the type.
    pub(crate) fn encode(&self, alloc: Global) -> Result<Bytes, EncodeFault>
        ensures { Encodes 258 (fields self.now) result }
    {
        join(
            alloc,
            &[
                Segment::Number16(258),
                self.signature.segment(),
                whole(&self.chain_hash.0),
                Segment::Number64(self.short_channel_id.to_u64()),
                Segment::Number32(self.timestamp),
                Segment::Number8(self.message_flags),
                Segment::Number8(self.channel_flags),
                Segment::Number16(self.cltv_expiry_delta),
                Segment::Number64(self.htlc_minimum_msat),
                Segment::Number32(self.fee_base_msat),
                Segment::Number32(self.fee_proportional_millionths),
                Segment::Number64(self.htlc_maximum_msat),
                Segment::Bytes(self.rest.as_slice()),
            ],
        )
    }
}
