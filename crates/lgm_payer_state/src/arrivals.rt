//! What a payee gets beside a route.

ghost use Rattle.std.specs.Prelude.{◌≡◌, ◌++◌, IfOk, OnOk};
ghost use Rattle.lgm_wire.specs.reading.Reading.{Gives};
ghost use Rattle.lgm_payload.specs.Arrival.{custom_record};
ghost use Rattle.lgm_payer_state.specs.Written.{IsWritten};
ghost use Rattle.lgm_payer_state.specs.Arrivals.{record_bytes, metadata_bytes, arrival_bytes};
ghost use Rattle.lgm_payer_state.specs.reading.ArrivalsReading.{record_at, metadata_at, arrival_at};

use crate::fields::{
    counted, fixed, flag, number64, write_counted, write_fixed, write_flag, write64,
};
use crate::lists::{read_all, write_all};
use crate::state_fault::StateFault;
use crate::stored::Stored;
use lgm_gossip::Bytes;
use lgm_payload::{Arrival, CustomRecord};
use std::alloc::{AllocError, Global};

impl Stored for CustomRecord {
    ghost bytes_of = { λ r. record_bytes (custom_record r) };

    ghost read_at = { record_at };

    #[tactic(auto, unfolding(crate::specs::Arrivals::record_bytes, crate::specs::reading::ArrivalsReading::record_at))]
    fn write(&self, out: &mut Vec<u8>) -> Result<(), AllocError> {
        write64(self.kind, out)?;
        write_counted(self.value.as_slice(), out)?;
        Ok(())
    }

    #[tactic(auto, unfolding(crate::specs::Arrivals::record_bytes, crate::specs::reading::ArrivalsReading::record_at))]
    fn read(alloc: Global, bytes: &[u8]) -> Result<(CustomRecord, &[u8]), StateFault> {
        let (kind, rest) = number64(bytes)?;
        let (value, rest) = counted(rest)?;
        let value = Bytes::from_slice(alloc, value)?;
        Ok((CustomRecord { kind, value }, rest))
    }
}

/// Writes whether there are metadata, and then these.
#[tactic(auto, unfolding(crate::specs::Arrivals::metadata_bytes, crate::specs::reading::ArrivalsReading::metadata_at))]
fn write_metadata(metadata: &Option<Bytes>, out: &mut Vec<u8>) -> Result<(), AllocError>
    ensures { OnOk result (IsWritten metadata_bytes metadata_at metadata.now out.old.items out.new.items) }
{
    match metadata {
        None => write_flag(false, out)?,
        Some(metadata) => {
            write_flag(true, out)?;
            write_counted(metadata.as_slice(), out)?;
        }
    }
    Ok(())
}

/// The metadata, if there are any, and the bytes behind them.
#[tactic(auto, unfolding(crate::specs::Arrivals::metadata_bytes, crate::specs::reading::ArrivalsReading::metadata_at))]
fn read_metadata(alloc: Global, bytes: &[u8]) -> Result<(Option<Bytes>, &[u8]), StateFault>
    ensures given { Gives StateFault.NoMemory (λ x. (x.0, x.1.now)) result (metadata_at bytes.now) }
    ensures exact { IfOk result (λ x. bytes.now ≡ metadata_bytes x.0 ++ x.1.now) }
{
    let (some, rest) = flag(bytes)?;
    if !some {
        return Ok((None, rest));
    }
    let (metadata, rest) = counted(rest)?;
    let metadata = Bytes::from_slice(alloc, metadata)?;
    Ok((Some(metadata), rest))
}

impl Stored for Arrival {
    ghost bytes_of = { arrival_bytes };

    ghost read_at = { arrival_at };

    #[tactic(auto, unfolding(crate::specs::Arrivals::arrival_bytes, crate::specs::reading::ArrivalsReading::arrival_at))]
    fn write(&self, out: &mut Vec<u8>) -> Result<(), AllocError> {
        write_fixed(self.secret(), out)?;
        write64(self.total(), out)?;
        write_metadata(self.metadata(), out)?;
        write_all(self.records(), out)?;
        Ok(())
    }

    #[tactic(auto, unfolding(crate::specs::Arrivals::arrival_bytes, crate::specs::reading::ArrivalsReading::arrival_at))]
    fn read(alloc: Global, bytes: &[u8]) -> Result<(Arrival, &[u8]), StateFault> {
        let (secret, rest) = fixed(bytes)?;
        let (total, rest) = number64(rest)?;
        let (metadata, rest) = read_metadata(alloc, rest)?;
        let (records, rest) = read_all(alloc, rest)?;
        Ok((Arrival::new(&secret, total, metadata, records), rest))
    }
}
