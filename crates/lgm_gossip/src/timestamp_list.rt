//! Lists of timestamps.

ghost use Rattle.lgm_gossip.specs.reading.TimestampListReading.{pair_of, timestamps_at};

use crate::fault::DecodeFault;
use crate::fixed_width::{FixedWidth, decode_all};
use crate::optional::RecordValue;
use crate::sequence::Sequence;
use crate::timestamps::Timestamps;
use std::alloc::Global;

/// Timestamps, one pair per id.
pub type TimestampList = Sequence<Timestamps>;

/// Two numbers of four bytes.
impl FixedWidth for Timestamps {
    ghost value_of = { pair_of };

    fn from_bytes(bytes: &[u8; 8]) -> Timestamps {
        let [a, b, c, d, e, f, g, h] = *bytes;
        Timestamps {
            node_1: u32::from_be_bytes([a, b, c, d]),
            node_2: u32::from_be_bytes([e, f, g, h]),
        }
    }
}

/// One pair per id.
impl RecordValue for TimestampList {
    ghost value_at = { timestamps_at };

    fn read(alloc: Global, ids: usize, bytes: &[u8]) -> Result<TimestampList, DecodeFault> {
        match bytes {
            [0, rest @ ..] => {
                let (chunks, left) = rest.as_chunks::<8>();
                if chunks.len() != ids {
                    return Err(DecodeFault::TlvKind(1));
                }
                if !left.is_empty() {
                    return Err(DecodeFault::TlvKind(1));
                }
                Ok(decode_all(alloc, chunks)?)
            }
            [] => Err(DecodeFault::TlvKind(1)),
            [first, ..] => Err(DecodeFault::Encoding(*first)),
        }
    }
}
