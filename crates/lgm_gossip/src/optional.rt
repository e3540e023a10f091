//! The TLV stream after a message's last field, in which records of type 1 are known.

ghost use Rattle.std.specs.Prelude.{ℕ, ◌<◌, List, length, None, Result, IfOk};
ghost use Rattle.lgm_wire.specs.reading.Reading.{Gives};
ghost use Rattle.lgm_wire.specs.TlvView.{record_of, records_of};
ghost use Rattle.lgm_gossip.specs.declared.fault.DecodeFault.{DecodeFault};
ghost use Rattle.lgm_gossip.specs.Memory.{GivesIf};
ghost use Rattle.lgm_gossip.specs.reading.OptionalReading.{stream_at, optional_of, after_record};
ghost use Rattle.lgm_gossip.specs.reading.OptionalReading.{after_records};

use crate::fault::DecodeFault;
use lgm_wire::{Tlv, Tlvs, WireFault, read_tlvs};
use std::alloc::Global;

/// The value of the record of type 1.
pub(crate) trait RecordValue: Drop {
    /// The value of all of the bytes, in a message with this many ids.
    ghost value_at: { ℕ → List ℕ → Result Self DecodeFault };

    /// Parses all of the bytes, in a message with this many ids.
    fn read(alloc: Global, ids: usize, bytes: &[u8]) -> Result<Self, DecodeFault>
        ensures { Gives DecodeFault.NoMemory (λ value. value) result (value_at ids bytes.now) };
}

/// The records of a stream that is all of the bytes.
fn records<'a>(alloc: Global, bytes: &'a [u8]) -> Result<Tlvs<'a>, DecodeFault>
    ensures exact { GivesIf (1 < length bytes.now) DecodeFault.NoMemory (λ records. records) result
        (stream_at bytes.now) }
    ensures some { IfOk result (λ records. 0 < length records → 1 < length bytes.now) }
{
    match read_tlvs(alloc, bytes) {
        Ok(records) => Ok(records),
        Err(WireFault::NoMemory) => Err(DecodeFault::NoMemory),
        Err(fault) => Err(DecodeFault::Tlv(fault)),
    }
}

/// The value after one more record.
fn with_record<T: RecordValue>(
    alloc: Global,
    ids: usize,
    value: Option<T>,
    tlv: &Tlv,
) -> Result<Option<T>, DecodeFault>
    ensures { Gives DecodeFault.NoMemory (λ value. value) result
        (after_record (T.value_at ids) value (record_of tlv.now)) }
{
    match tlv.kind {
        1 => Ok(Some(T::read(alloc, ids, tlv.value)?)),
        kind if kind % 2 == 0 => Err(DecodeFault::TlvKind(kind)),
        _ => Ok(value),
    }
}

/// The value, if one of the records has it.
fn known<T: RecordValue>(
    alloc: Global,
    ids: usize,
    records: &[Tlv],
) -> Result<Option<T>, DecodeFault>
    ensures { GivesIf (0 < length records.now) DecodeFault.NoMemory (λ value. value) result
        (after_records (T.value_at ids) None (records_of records.now)) }
{
    let mut value = None;
    for tlv in records {
        value = with_record(alloc, ids, value, tlv)?;
    }
    Ok(value)
}

/// The value, if the stream that is all of the bytes has it.
#[tactic(auto, unfolding(crate::specs::reading::OptionalReading::optional_of))]
pub(crate) fn optional<T: RecordValue>(
    alloc: Global,
    ids: usize,
    bytes: &[u8],
) -> Result<Option<T>, DecodeFault>
    ensures { GivesIf (1 < length bytes.now) DecodeFault.NoMemory (λ found. found) result
        (optional_of (T.value_at ids) bytes.now) }
{
    known(alloc, ids, records(alloc, bytes)?.as_slice())
}
