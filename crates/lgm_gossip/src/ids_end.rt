//! `reply_short_channel_ids_end`.

ghost use Rattle.lgm_wire.specs.reading.Reading.{Sees};

use crate::encode_fault::EncodeFault;
use crate::fault::DecodeFault;
use crate::fields::{fixed, number8};
use crate::segment::{Segment, join, whole};
use crate::sequence::Bytes;
use lgm_wire::ChainHash;
use std::alloc::Global;

/// A `reply_short_channel_ids_end`, type 262: the reply to a query by ids is complete (BOLT 7, "The
/// query_short_channel_ids/reply_short_channel_ids_end Messages").
#[derive(Clone, Copy, Debug, PartialEq, Eq)]
pub struct IdsEnd {
    /// The chain of the query.
    pub chain_hash: ChainHash,
    /// 0 if the sender doesn't maintain this chain, else 1. Stored as received.
    pub full_information: u8,
}

impl IdsEnd {
    ghost use Rattle.lgm_gossip.specs.IdsEnd.{fields};
    ghost use Rattle.lgm_gossip.specs.reading.IdsEndReading.{ids_end_at};
    ghost use Rattle.lgm_gossip.specs.Spelling.{Encodes};

    /// Reads the fields, from left to right, from the bytes after the type. Trailing bytes are dropped.
    #[tactic(auto, unfolding(crate::specs::reading::IdsEndReading::ids_end_at))]
    pub(crate) fn read(bytes: &[u8]) -> Result<IdsEnd, DecodeFault>
        ensures { Sees (λ m. m) result (ids_end_at bytes.now) }
    {
        let (chain_hash, rest) = fixed(bytes)?;
        let (full_information, _) = number8(rest)?;
        Ok(IdsEnd {
            chain_hash: ChainHash(chain_hash),
            full_information,
        })
    }

    /// The encoding, beginning with the two bytes of the type.
    pub(crate) fn encode(&self, alloc: Global) -> Result<Bytes, EncodeFault>
        ensures { Encodes 262 (fields self.now) result }
    {
        join(
            alloc,
            &[
                Segment::Number16(262),
                whole(&self.chain_hash.0),
                Segment::Number8(self.full_information),
            ],
        )
    }
}
