//! Query flags.

ghost use Rattle.lgm_wire.specs.reading.Reading.{Sees, Gives};
ghost use Rattle.lgm_gossip.specs.reading.QueryFlagsReading.{flag_at, all_flags_at, query_flags_at};

use crate::fault::DecodeFault;
use crate::optional::RecordValue;
use crate::sequence::Sequence;
use lgm_wire::read_bigsize;
use std::alloc::Global;

/// The flags of a query, one number per id: bit 0 requests the channel announcement, bits 1 and 2 the updates by node 1
/// and node 2, bits 3 and 4 the announcements of node 1 and node 2 (BOLT 7, "The
/// query_short_channel_ids/reply_short_channel_ids_end Messages").
pub type QueryFlags = Sequence<u64>;

/// The leading number, and the bytes after it.
fn flag(bytes: &[u8]) -> Result<(u64, &[u8]), DecodeFault>
    ensures { Sees (λ x. (x.0, x.1.now)) result (flag_at bytes.now) }
{
    match read_bigsize(bytes) {
        Ok((flag, len)) => {
            let (_, rest) = bytes.split_at(len);
            Ok((flag, rest))
        }
        Err(_) => Err(DecodeFault::Flags),
    }
}

/// This many numbers, which are all of the bytes.
fn all_flags(alloc: Global, count: usize, bytes: &[u8]) -> Result<Vec<u64>, DecodeFault>
    ensures { Gives DecodeFault.NoMemory (λ flags. flags.items) result (all_flags_at count bytes.now) }
{
    let mut flags = Vec::with_capacity(alloc, count)?;
    let mut rest = bytes;
    for _ in 0..count {
        let (one, after) = flag(rest)?;
        let Ok(()) = flags.push(one) else {
            return Err(DecodeFault::NoMemory);
        };
        rest = after;
    }
    if rest.is_empty() {
        Ok(flags)
    } else {
        Err(DecodeFault::Flags)
    }
}

/// One flag per id.
impl RecordValue for QueryFlags {
    ghost value_at = { query_flags_at };

    fn read(alloc: Global, ids: usize, bytes: &[u8]) -> Result<QueryFlags, DecodeFault> {
        match bytes {
            [] => Err(DecodeFault::Flags),
            [0, rest @ ..] => Ok(QueryFlags::from_vec(all_flags(alloc, ids, rest)?)),
            [first, ..] => Err(DecodeFault::Encoding(*first)),
        }
    }
}
