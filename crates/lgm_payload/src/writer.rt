//! Encoding of payloads.

ghost use Rattle.std.specs.Prelude.{◌≡◌, ◌++◌, OnOk, IfOk};
ghost use Rattle.std.specs.Int.{w64, to_be_bytes};
ghost use Rattle.std.specs.Option.{option_map};
ghost use Rattle.std.specs.List.{flat_map};
ghost use Rattle.lgm_payload.specs.HopPayload.{optional_bytes, payment_bytes};
ghost use Rattle.lgm_payload.specs.Arrival.{custom_records, records_with, payload_with};
ghost use Rattle.lgm_wire.specs.Tlv.{record_bytes};
ghost use Rattle.lgm_wire.specs.TruncatedInteger.{truncated_bytes};

use crate::custom_record::CustomRecord;
use crate::hop_payload::{HopPayload, Payment};
use lgm_gossip::{Bytes, Scid};
use lgm_wire::{NoMemory, write_bigsize, write_tlv, write_tu};
use std::alloc::Global;

/// Appends the record of a number.
fn append_number(alloc: Global, text: &mut Vec<u8>, kind: u64, number: u64) -> Result<(), NoMemory>
    ensures { OnOk result (text.new.items ≡
        text.old.items ++ record_bytes (record { kind = kind; value = truncated_bytes number })) }
{
    let mut value = Vec::new(alloc);
    write_tu(&mut value, number)?;
    write_tlv(text, kind, &value)
}

/// Appends the record of the next channel, if there is one.
fn append_next(text: &mut Vec<u8>, next: Option<Scid>) -> Result<(), NoMemory>
    ensures { OnOk result (text.new.items ≡
        text.old.items ++ optional_bytes 6 (option_map (to_be_bytes w64) next)) }
{
    match next {
        None => Ok(()),
        Some(scid) => write_tlv(text, 6, &scid.to_u64().to_be_bytes()),
    }
}

/// The value of the record of a payment.
fn payment_value(alloc: Global, payment: &Payment) -> Result<Vec<u8>, NoMemory>
    ensures { IfOk result (λ value. value.items ≡ payment_bytes payment.now) }
{
    let mut value = Vec::from_slice(alloc, &payment.secret)?;
    write_tu(&mut value, payment.total)?;
    Ok(value)
}

/// Appends the record of the payment, if there is one.
fn append_payment(
    alloc: Global,
    text: &mut Vec<u8>,
    payment: &Option<Payment>,
) -> Result<(), NoMemory>
    ensures { OnOk result (text.new.items ≡
        text.old.items ++ optional_bytes 8 (option_map payment_bytes payment.now)) }
{
    match payment {
        None => Ok(()),
        Some(payment) => {
            let value = payment_value(alloc, payment)?;
            write_tlv(text, 8, &value)
        }
    }
}

/// Appends the record of the metadata, if there are any.
fn append_metadata(text: &mut Vec<u8>, metadata: &Option<Bytes>) -> Result<(), NoMemory>
    ensures { OnOk result (text.new.items ≡
        text.old.items ++ optional_bytes 16 metadata.now) }
{
    match metadata {
        None => Ok(()),
        Some(metadata) => write_tlv(text, 16, metadata.as_slice()),
    }
}

fn append_custom(text: &mut Vec<u8>, custom: &[CustomRecord]) -> Result<(), NoMemory>
    ensures { OnOk result (text.new.items ≡
        text.old.items ++ flat_map record_bytes (custom_records custom.now)) }
{
    for record in custom {
        write_tlv(text, record.kind, record.value.as_slice())?;
    }
    Ok(())
}

/// The TLV stream of a payload with custom records.
fn text(alloc: Global, payload: &HopPayload, custom: &[CustomRecord]) -> Result<Vec<u8>, NoMemory>
    ensures { IfOk result (λ text. text.items ≡
        flat_map record_bytes (records_with payload.now (custom_records custom.now))) }
{
    let mut text = Vec::new(alloc);
    append_number(alloc, &mut text, 2, payload.amount)?;
    append_number(alloc, &mut text, 4, u64::from(payload.expiry))?;
    append_next(&mut text, payload.next)?;
    append_payment(alloc, &mut text, &payload.payment)?;
    append_metadata(&mut text, &payload.metadata)?;
    append_custom(&mut text, custom)?;
    Ok(text)
}

/// The encoding of a payload with custom records, beginning with its length.
pub(crate) fn write(
    alloc: Global,
    payload: &HopPayload,
    custom: &[CustomRecord],
) -> Result<Bytes, NoMemory>
    ensures { IfOk result (λ bytes. bytes ≡ payload_with payload.now (custom_records custom.now)) }
{
    let text = text(alloc, payload, custom)?;
    let mut bytes = Vec::new(alloc);
    write_bigsize(&mut bytes, text.len() as u64)?;
    bytes.extend_from_slice(&text)?;
    Ok(Bytes::from_vec(bytes))
}
