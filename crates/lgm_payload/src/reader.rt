//! Parsing of payloads.

ghost use Rattle.std.specs.Prelude.{◌≡◌, ◌⊎◌, ℕ, List, IfOk, IfErr, MatchResult};
ghost use Rattle.std.specs.Prelude.{Some, None, ◌<◌, ◌≤◌, ◌^◌, slice_index};
ghost use Rattle.lgm_wire.specs.reading.Reading.{Sees, Gives};
ghost use Rattle.lgm_wire.specs.TlvView.{record_of, records_of};
ghost use Rattle.lgm_payload.specs.HopPayload.{IsPayload};
ghost use Rattle.lgm_payload.specs.reading.Reading.{number_at, scid_at, payment_at, text_at, stream_at};
ghost use Rattle.lgm_payload.specs.reading.Reading.{IsAdded, known_at, whole, payload_at, fault};
ghost use Rattle.lgm_payload.specs.declared.hop_payload.HopPayload.{HopPayload};

use crate::fault::PayloadFault;
use crate::hop_payload::{HopPayload, Payment};
use lgm_gossip::{Bytes, Scid};
use lgm_wire::{Tlv, Tlvs, WireFault, read_bigsize, read_tlvs, read_tu};
use std::alloc::Global;

/// The values found in the records so far.
#[derive(Drop)]
struct FoundValues {
    amount: Option<u64>,
    expiry: Option<u32>,
    next: Option<Scid>,
    payment: Option<Payment>,
    metadata: Option<Bytes>,
}

/// The bytes after the length, if that is their number.
fn text(bytes: &[u8]) -> Result<&[u8], PayloadFault>
    ensures { Sees (λ text. text.now) result (text_at bytes.now) }
{
    match read_bigsize(bytes) {
        Ok((len, front)) if len == (bytes.len() - front) as u64 => {
            let (_, text) = bytes.split_at(front);
            Ok(text)
        }
        _ => Err(PayloadFault::Length),
    }
}

/// The records of a stream that is all of the bytes.
fn records<'a>(alloc: Global, bytes: &'a [u8]) -> Result<Tlvs<'a>, PayloadFault>
    ensures { Gives PayloadFault.NoMemory (λ records. records) result (stream_at bytes.now) }
{
    match read_tlvs(alloc, bytes) {
        Ok(records) => Ok(records),
        Err(WireFault::NoMemory) => Err(PayloadFault::NoMemory),
        Err(fault) => Err(PayloadFault::Tlv(fault)),
    }
}

/// The value of a record of this type as a truncated integer of up to `max` bytes.
fn number(kind: u64, max: usize, value: &[u8]) -> Result<u64, PayloadFault>
    requires some { 1 ≤ max }
    requires fits { max ≤ 8 }
    ensures value { Sees (λ n. n) result (number_at kind max value.now) }
    ensures small { IfOk result (λ n. n < 256 ^ max) }
{
    match read_tu(value, max) {
        Ok(number) => Ok(number),
        Err(_) => Err(PayloadFault::Kind(kind)),
    }
}

/// The value of a record of type 6.
fn scid(value: &[u8]) -> Result<Scid, PayloadFault>
    ensures { Sees (λ scid. scid) result (scid_at value.now) }
{
    match value {
        [a, b, c, d, e, f, g, h] => Ok(Scid::from_u64(u64::from_be_bytes([
            *a, *b, *c, *d, *e, *f, *g, *h,
        ]))),
        _ => Err(PayloadFault::Kind(6)),
    }
}

/// The value of a record of type 8.
fn payment(value: &[u8]) -> Result<Payment, PayloadFault>
    ensures { Sees (λ payment. payment) result (payment_at value.now) }
{
    let Some((secret, total)) = value.split_first_chunk::<32>() else {
        return Err(PayloadFault::Kind(8));
    };
    Ok(Payment {
        secret: *secret,
        total: number(8, 8, total)?,
    })
}

/// Adds the value of one more record. After a fault the values found before may be lost.
fn add_value(alloc: Global, known: &mut FoundValues, tlv: &Tlv) -> Result<(), PayloadFault>
    ensures { IsAdded known.old (record_of tlv.now) result known.new }
{
    match tlv.kind {
        2 => known.amount = Some(number(2, 8, tlv.value)?),
        4 => known.expiry = Some(number(4, 4, tlv.value)? as u32),
        6 => known.next = Some(scid(tlv.value)?),
        8 => known.payment = Some(payment(tlv.value)?),
        16 => known.metadata = Some(Bytes::from_slice(alloc, tlv.value)?),
        10 | 12 | 18 => return Err(PayloadFault::Blinded),
        kind if kind % 2 == 0 => return Err(PayloadFault::Kind(kind)),
        _ => {}
    }
    Ok(())
}

/// The values found in all records.
fn told(alloc: Global, records: &[Tlv]) -> Result<FoundValues, PayloadFault>
    ensures { Gives PayloadFault.NoMemory (λ known. known) result (known_at (records_of records.now)) }
{
    let mut known = FoundValues {
        amount: None,
        expiry: None,
        next: None,
        payment: None,
        metadata: None,
    };
    for tlv in records {
        add_value(alloc, &mut known, tlv)?;
    }
    Ok(known)
}

fn payload(known: FoundValues) -> Result<HopPayload, PayloadFault>
    ensures { Sees (λ payload. payload) result (whole known) }
{
    let (Some(amount), Some(expiry)) = (known.amount, known.expiry) else {
        return Err(PayloadFault::Missing);
    };
    if known.next.is_some() && known.payment.is_some() {
        return Err(PayloadFault::Extra);
    }
    Ok(HopPayload {
        amount,
        expiry,
        next: known.next,
        payment: known.payment,
        metadata: known.metadata,
    })
}

/// Parses a payload, which begins with its length.
#[tactic(auto, unfolding(crate::specs::reading::Reading::payload_at))]
fn parse(alloc: Global, bytes: &[u8]) -> Result<HopPayload, PayloadFault>
    ensures { Gives PayloadFault.NoMemory (λ payload. payload) result (payload_at bytes.now) }
{
    let text = text(bytes)?;
    let records = records(alloc, text)?;
    payload(told(alloc, records.as_slice())?)
}

/// Parses a payload, which is all of the bytes and begins with its length (BOLT 4, "Payload
/// Format").
///
/// Any bytes of any length are allowed. Faults are checked in the order of [`PayloadFault`]'s
/// variants: the length; the first fault of the TLV stream; the first faulty record, `Blinded` or
/// `Kind`; `Missing`; `Extra`. Unknown odd types are skipped. `NoMemory` says nothing about the
/// bytes.
pub fn read(alloc: Global, bytes: &[u8]) -> Result<HopPayload, PayloadFault>
    // A payload is returned if and only if the bytes encode it.
    ensures found { IfOk result (λ payload. IsPayload payload bytes.now) }
    ensures only { (payload : HopPayload) → IsPayload payload bytes.now →
        MatchResult result (λ found. found ≡ payload) (λ e. e ≡ PayloadFault.NoMemory) }

    // Any fault but out of memory is the first one in the order above.
    ensures fault { IfErr result (λ e. (e ≡ PayloadFault.NoMemory) ⊎ (fault bytes.now ≡ Some e)) }

    // The same in one clause: the result of reading the bytes.
    ensures exact { Gives PayloadFault.NoMemory (λ payload. payload) result (payload_at bytes.now) }
{
    parse(alloc, bytes)
}

/// Laws of payloads: bytes encode at most one, and exactly one if and only if they have no fault.
pub fn one_payload()
    ensures once { (p q : HopPayload) (b : List ℕ) → IsPayload p b → IsPayload q b → p ≡ q }
    ensures spelled { (b : List ℕ) → ((i : ℕ) → slice_index b i < 256)
        → fault b ≡ None → (p : HopPayload) × IsPayload p b }
    ensures faultless { (p : HopPayload) (b : List ℕ) → IsPayload p b → fault b ≡ None }
{}
