//! `query_short_channel_ids`.

ghost use Rattle.std.specs.Prelude.{◌<◌, length};
ghost use Rattle.lgm_gossip.specs.Memory.{GivesIf};

use crate::encode_fault::EncodeFault;
use crate::encoded_ids::{Scids, encoded_ids};
use crate::fault::DecodeFault;
use crate::fields::fixed;
use crate::optional::optional;
use crate::query_flags::QueryFlags;
use crate::segment::{Segment, encoded_len, join, whole};
use crate::sequence::Bytes;
use lgm_wire::ChainHash;
use std::alloc::Global;
use std::marker::Model;

/// A `query_short_channel_ids`, type 261: a request for the messages about some channels (BOLT 7, "The
/// query_short_channel_ids/reply_short_channel_ids_end Messages"). If there are flags, there is one for each id.
#[derive(Debug, Drop)]
pub struct IdsQuery {
    /// The chain of the channels.
    pub chain_hash: ChainHash,
    /// The ids of the channels, in the order of the message.
    pub ids: Scids,
    /// Which messages are requested for each id; if absent, all.
    pub flags: Option<QueryFlags>,
}

impl Model for IdsQuery {
    ghost use Rattle.std.specs.Prelude.{◌≡◌, length};
    ghost use Rattle.std.specs.Option.{ForSome};
    ghost use Rattle.lgm_gossip.specs.IdsQuery.{Query};

    ghost Value = { Query };

    ghost view = { λ m. record { chain_hash = m.chain_hash; ids = m.ids; flags = m.flags } };

    ghost invariant = { λ m. ForSome m.flags (λ flags. length flags ≡ length m.ids) };
}

impl IdsQuery {
    ghost use Rattle.lgm_gossip.specs.IdsQuery.{fields};
    ghost use Rattle.lgm_gossip.specs.reading.IdsQueryReading.{ids_query_at};
    ghost use Rattle.lgm_gossip.specs.Spelling.{Encodes};

    /// Reads the fields, from left to right, from the bytes after the type.
    #[tactic(auto, unfolding(crate::specs::reading::IdsQueryReading::ids_query_at))]
    pub(crate) fn read(alloc: Global, bytes: &[u8]) -> Result<IdsQuery, DecodeFault>
        ensures { GivesIf (35 < length bytes.now) DecodeFault.NoMemory (λ m. m) result
            (ids_query_at bytes.now) }
    {
        let (chain_hash, rest) = fixed(bytes)?;
        let (ids, rest) = encoded_ids(alloc, rest)?;
        let flags = optional(alloc, ids.len(), rest)?;
        Ok(IdsQuery {
            chain_hash: ChainHash(chain_hash),
            ids,
            flags,
        })
    }

    /// The encoding, beginning with the two bytes of the type.
    pub(crate) fn encode(&self, alloc: Global) -> Result<Bytes, EncodeFault>
        ensures { Encodes 261 (fields self.now) result }
    {
        let ids = Segment::Ids(self.ids.as_slice());
        let ids_len = encoded_len(&[Segment::Number8(0), ids])?;
        let front = [
            Segment::Number16(261),
            whole(&self.chain_hash.0),
            Segment::Number16(ids_len),
            Segment::Number8(0),
            ids,
        ];
        let Some(flags) = &self.flags else {
            return join(alloc, &front);
        };
        let flags = Segment::Bigs(flags.as_slice());
        let flags_len = encoded_len(&[Segment::Number8(0), flags])?;
        let [kind, chain, len, encoding, ids] = front;
        join(
            alloc,
            &[
                kind,
                chain,
                len,
                encoding,
                ids,
                Segment::Big(1),
                Segment::Big(u64::from(flags_len)),
                Segment::Number8(0),
                flags,
            ],
        )
    }
}
