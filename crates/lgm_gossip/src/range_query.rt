//! `query_channel_range`.

ghost use Rattle.std.specs.Prelude.{◌<◌, length};
ghost use Rattle.lgm_gossip.specs.Memory.{GivesIf};
ghost use Rattle.lgm_gossip.specs.reading.RangeQueryReading.{options_at};

use crate::encode_fault::EncodeFault;
use crate::fault::DecodeFault;
use crate::fields::{fixed, number32};
use crate::optional::{RecordValue, optional};
use crate::segment::{Segment, bigsize_len, join, whole};
use crate::sequence::Bytes;
use lgm_wire::{ChainHash, read_bigsize};
use std::alloc::Global;

/// A `query_channel_range`, type 263: a request for the ids of the channels funded in a range of blocks (BOLT 7, "The
/// query_channel_range and reply_channel_range Messages").
#[derive(Clone, Copy, Debug, PartialEq, Eq)]
pub struct RangeQuery {
    /// The chain of the channels.
    pub chain_hash: ChainHash,
    /// The height of the first block.
    pub first_blocknum: u32,
    /// The number of blocks in the range.
    pub number_of_blocks: u32,
    /// What is requested besides the ids: bit 0 timestamps, bit 1 checksums.
    pub options: Option<u64>,
}

/// Options: one BigSize.
impl RecordValue for u64 {
    ghost value_at = { λ _ bytes. options_at bytes };

    fn read(_alloc: Global, _ids: usize, bytes: &[u8]) -> Result<u64, DecodeFault> {
        match read_bigsize(bytes) {
            Ok((options, len)) if len == bytes.len() => Ok(options),
            _ => Err(DecodeFault::TlvKind(1)),
        }
    }
}

impl RangeQuery {
    ghost use Rattle.lgm_gossip.specs.RangeQuery.{fields};
    ghost use Rattle.lgm_gossip.specs.reading.RangeQueryReading.{range_query_at};
    ghost use Rattle.lgm_gossip.specs.Spelling.{Encodes};

    /// Reads the fields, from left to right, from the bytes after the type.
    #[tactic(auto, unfolding(crate::specs::reading::RangeQueryReading::range_query_at))]
    pub(crate) fn read(alloc: Global, bytes: &[u8]) -> Result<RangeQuery, DecodeFault>
        ensures { GivesIf (40 < length bytes.now) DecodeFault.NoMemory (λ m. m) result
            (range_query_at bytes.now) }
    {
        let (chain_hash, rest) = fixed(bytes)?;
        let (first_blocknum, rest) = number32(rest)?;
        let (number_of_blocks, rest) = number32(rest)?;
        Ok(RangeQuery {
            chain_hash: ChainHash(chain_hash),
            first_blocknum,
            number_of_blocks,
            options: optional(alloc, 0, rest)?,
        })
    }

    /// The encoding, beginning with the two bytes of the type.
    pub(crate) fn encode(&self, alloc: Global) -> Result<Bytes, EncodeFault>
        ensures { Encodes 263 (fields self.now) result }
    {
        let Some(options) = self.options else {
            return join(
                alloc,
                &[
                    Segment::Number16(263),
                    whole(&self.chain_hash.0),
                    Segment::Number32(self.first_blocknum),
                    Segment::Number32(self.number_of_blocks),
                ],
            );
        };
        join(
            alloc,
            &[
                Segment::Number16(263),
                whole(&self.chain_hash.0),
                Segment::Number32(self.first_blocknum),
                Segment::Number32(self.number_of_blocks),
                Segment::Big(1),
                Segment::Big(bigsize_len(options) as u64),
                Segment::Big(options),
            ],
        )
    }
}
