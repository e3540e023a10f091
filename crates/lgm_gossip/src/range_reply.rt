//! `reply_channel_range`.

ghost use Rattle.std.specs.Prelude.{◌<◌, length};
ghost use Rattle.lgm_gossip.specs.Memory.{GivesIf};

use crate::encode_fault::EncodeFault;
use crate::encoded_ids::{Scids, encoded_ids};
use crate::fault::DecodeFault;
use crate::fields::{fixed, number8, number32};
use crate::optional::optional;
use crate::segment::{Segment, encoded_len, join, whole};
use crate::sequence::Bytes;
use crate::timestamp_list::TimestampList;
use lgm_wire::ChainHash;
use std::alloc::Global;
use std::marker::Model;

/// A `reply_channel_range`, type 264: ids of the channels in a range of blocks (BOLT 7, "The query_channel_range and
/// reply_channel_range Messages"). If there are timestamps, there is a pair for each id. Checksums are dropped.
#[derive(Debug, Drop)]
pub struct RangeReply {
    /// The chain of the query.
    pub chain_hash: ChainHash,
    /// The height of the first block.
    pub first_blocknum: u32,
    /// The number of blocks that the reply covers.
    pub number_of_blocks: u32,
    /// 1 in the last reply to a query, else 0. Stored as received.
    pub sync_complete: u8,
    /// The channel ids, in the order of the message. Whether they ascend isn't checked.
    pub ids: Scids,
    /// The timestamps of their updates, if the query requested them.
    pub timestamps: Option<TimestampList>,
}

impl Model for RangeReply {
    ghost use Rattle.std.specs.Prelude.{◌≡◌, length};
    ghost use Rattle.std.specs.Option.{ForSome};
    ghost use Rattle.lgm_gossip.specs.RangeReply.{ReplyFields};

    ghost Value = { ReplyFields };

    ghost view = { λ m. record {
      chain_hash = m.chain_hash;
      first_blocknum = m.first_blocknum;
      number_of_blocks = m.number_of_blocks;
      sync_complete = m.sync_complete;
      ids = m.ids;
      timestamps = m.timestamps;
    } };

    ghost invariant = { λ m. ForSome m.timestamps (λ pairs. length pairs ≡ length m.ids) };
}

impl RangeReply {
    ghost use Rattle.lgm_gossip.specs.RangeReply.{fields};
    ghost use Rattle.lgm_gossip.specs.reading.RangeReplyReading.{range_reply_at};
    ghost use Rattle.lgm_gossip.specs.Spelling.{Encodes};

    /// Reads the fields, from left to right, from the bytes after the type.
    #[tactic(auto, unfolding(crate::specs::reading::RangeReplyReading::range_reply_at))]
    pub(crate) fn read(alloc: Global, bytes: &[u8]) -> Result<RangeReply, DecodeFault>
        ensures { GivesIf (44 < length bytes.now) DecodeFault.NoMemory (λ m. m) result
            (range_reply_at bytes.now) }
    {
        let (chain_hash, rest) = fixed(bytes)?;
        let (first_blocknum, rest) = number32(rest)?;
        let (number_of_blocks, rest) = number32(rest)?;
        let (sync_complete, rest) = number8(rest)?;
        let (ids, rest) = encoded_ids(alloc, rest)?;
        let timestamps = optional(alloc, ids.len(), rest)?;
        Ok(RangeReply {
            chain_hash: ChainHash(chain_hash),
            first_blocknum,
            number_of_blocks,
            sync_complete,
            ids,
            timestamps,
        })
    }

    /// The encoding, beginning with the two bytes of the type.
    pub(crate) fn encode(&self, alloc: Global) -> Result<Bytes, EncodeFault>
        ensures { Encodes 264 (fields self.now) result }
    {
        let ids = Segment::Ids(self.ids.as_slice());
        let ids_len = encoded_len(&[Segment::Number8(0), ids])?;
        let front = [
            Segment::Number16(264),
            whole(&self.chain_hash.0),
            Segment::Number32(self.first_blocknum),
            Segment::Number32(self.number_of_blocks),
            Segment::Number8(self.sync_complete),
            Segment::Number16(ids_len),
            Segment::Number8(0),
            ids,
        ];
        let Some(timestamps) = &self.timestamps else {
            return join(alloc, &front);
        };
        let pairs = Segment::Pairs(timestamps.as_slice());
        let pairs_len = encoded_len(&[Segment::Number8(0), pairs])?;
        let [kind, chain, first, number, complete, len, encoding, ids] = front;
        join(
            alloc,
            &[
                kind,
                chain,
                first,
                number,
                complete,
                len,
                encoding,
                ids,
                Segment::Big(1),
                Segment::Big(u64::from(pairs_len)),
                Segment::Number8(0),
                pairs,
            ],
        )
    }
}
