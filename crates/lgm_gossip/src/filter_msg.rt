//! `gossip_timestamp_filter`.

ghost use Rattle.lgm_wire.specs.reading.Reading.{Sees};

use crate::encode_fault::EncodeFault;
use crate::fault::DecodeFault;
use crate::fields::{fixed, number32};
use crate::segment::{Segment, join, whole};
use crate::sequence::Bytes;
use lgm_wire::ChainHash;
use std::alloc::Global;

/// A `gossip_timestamp_filter`, type 265: the sender requests gossip with timestamps in this range (BOLT 7, "The
/// gossip_timestamp_filter Message").
#[derive(Clone, Copy, Debug, PartialEq, Eq)]
pub struct FilterMsg {
    /// The chain whose gossip is requested.
    pub chain_hash: ChainHash,
    /// The first timestamp of the range, in seconds since 1970.
    pub first_timestamp: u32,
    /// The length of the range, in seconds.
    pub timestamp_range: u32,
}

impl FilterMsg {
    ghost use Rattle.lgm_gossip.specs.FilterMsg.{fields};
    ghost use Rattle.lgm_gossip.specs.reading.FilterMsgReading.{filter_msg_at};
    ghost use Rattle.lgm_gossip.specs.Spelling.{Encodes};

    /// Reads the fields, from left to right, from the bytes after the type. Trailing bytes are dropped.
    #[tactic(auto, unfolding(crate::specs::reading::FilterMsgReading::filter_msg_at))]
    pub(crate) fn read(bytes: &[u8]) -> Result<FilterMsg, DecodeFault>
        ensures { Sees (λ m. m) result (filter_msg_at bytes.now) }
    {
        let (chain_hash, rest) = fixed(bytes)?;
        let (first_timestamp, rest) = number32(rest)?;
        let (timestamp_range, _) = number32(rest)?;
        Ok(FilterMsg {
            chain_hash: ChainHash(chain_hash),
            first_timestamp,
            timestamp_range,
        })
    }

    /// The encoding, beginning with the two bytes of the type.
    pub(crate) fn encode(&self, alloc: Global) -> Result<Bytes, EncodeFault>
        ensures { Encodes 265 (fields self.now) result }
    {
        join(
            alloc,
            &[
                Segment::Number16(265),
                whole(&self.chain_hash.0),
                Segment::Number32(self.first_timestamp),
                Segment::Number32(self.timestamp_range),
            ],
        )
    }
}
