//! Encoded channel ids, as in queries and replies.

ghost use Rattle.std.specs.Prelude.{◌<◌, length};
ghost use Rattle.std.specs.Int.{w64, from_be_bytes};
ghost use Rattle.lgm_gossip.specs.reading.EncodedIdsReading.{ids_of, encoded_ids_at};
ghost use Rattle.lgm_gossip.specs.Memory.{GivesIf};

use crate::fault::DecodeFault;
use crate::fields::counted;
use crate::fixed_width::{FixedWidth, decode_all};
use crate::sequence::Sequence;
use lgm_wire::Scid;
use std::alloc::Global;

/// A list of channel ids.
pub type Scids = Sequence<Scid>;

/// A big-endian number.
impl FixedWidth for Scid {
    ghost value_of = { from_be_bytes w64 };

    fn from_bytes(bytes: &[u8; 8]) -> Scid {
        Scid::from_u64(u64::from_be_bytes(*bytes))
    }
}

/// The ids of an encoded list without its length.
fn ids(alloc: Global, bytes: &[u8]) -> Result<Scids, DecodeFault>
    ensures { GivesIf (1 < length bytes.now) DecodeFault.NoMemory (λ ids. ids) result (ids_of bytes.now) }
{
    match bytes {
        [] | [0] => Ok(Scids::from_vec(Vec::new(alloc))),
        [0, rest @ ..] => {
            let (chunks, left) = rest.as_chunks::<8>();
            if !left.is_empty() {
                return Err(DecodeFault::Ids);
            }
            Ok(decode_all(alloc, chunks)?)
        }
        [first, ..] => Err(DecodeFault::Encoding(*first)),
    }
}

/// The leading ids, after their length, and the bytes after them.
pub(crate) fn encoded_ids(alloc: Global, bytes: &[u8]) -> Result<(Scids, &[u8]), DecodeFault>
    ensures { GivesIf (3 < length bytes.now) DecodeFault.NoMemory (λ x. (x.0, x.1.now)) result
        (encoded_ids_at bytes.now) }
{
    let (text, rest) = counted(bytes)?;
    Ok((ids(alloc, text)?, rest))
}
