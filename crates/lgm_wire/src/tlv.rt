//! TLV streams: records of type, length and value, with strictly increasing types (BOLT 1,
//! Type-Length-Value Format and Appendix B).

ghost use Rattle.std.specs.Prelude.{◌≡◌, ℕ, ◌+◌, ◌<◌, ◌≤◌, List, ◌++◌, ◌⊎◌, length, slice_index, Ok};
ghost use Rattle.std.specs.Prelude.{vec_len, vec_capacity, OnOk, OnErr, IfOk, IfErr, MatchResult};
ghost use Rattle.lgm_wire.specs.reading.Reading.{Sees, Gives};
ghost use Rattle.lgm_wire.specs.Tlv.{TlvRecord, IsTlvStream, record_bytes};
ghost use Rattle.lgm_wire.specs.reading.TlvReading.{IsFirstFault, record_at, tlvs_of};
ghost use Rattle.lgm_wire.specs.TlvView.{record_of, records_of};

use crate::bigsize::{split_bigsize, write_bigsize};
use crate::fault::{NoMemory, WireFault};
use std::alloc::Global;
use std::marker::Model;

/// A record of a stream (BOLT 1, Type-Length-Value Format).
#[derive(Clone, Copy, Debug, PartialEq, Eq)]
pub struct Tlv<'a> {
    /// The type, a number of up to 64 bits.
    pub kind: u64,
    /// The value, borrowed from the input.
    pub value: &'a [u8],
}

/// The records of a stream. Contracts see a list of types and values, with increasing types.
#[derive(Debug, Drop)]
pub struct Tlvs<'a> {
    items: Vec<Tlv<'a>>,
}

impl<'a> Model for Tlvs<'a> {
    ghost use Rattle.std.specs.Prelude.{List};
    ghost use Rattle.lgm_wire.specs.Tlv.{TlvRecord};
    ghost use Rattle.lgm_wire.specs.TlvView.{records_of};

    ghost Value = { List TlvRecord };

    ghost view = { λ t. records_of t.items.items };
}

impl<'a> Tlvs<'a> {
    /// The records, in the order of the stream.
    pub fn as_slice(&self) -> &[Tlv<'a>]
        ensures { records_of result.now ≡ self.now }
    {
        self.items.as_slice()
    }

    /// The vector of its records, without a copy.
    pub fn into_vec(self) -> Vec<Tlv<'a>>
        ensures { records_of result.items ≡ self.entry }
    {
        let Tlvs { items } = self;
        items
    }
}

/// The leading record, whose type is above the last one, and the bytes after it.
#[tactic(auto, unfolding(crate::specs::reading::TlvReading::record_at))]
fn split_tlv<'a>(last: Option<u64>, bytes: &'a [u8]) -> Result<(Tlv<'a>, &'a [u8]), WireFault>
    ensures { Sees (λ x. (record_of x.0, x.1.now)) result (record_at last bytes.now) }
{
    let (kind, rest) = split_bigsize(bytes)?;
    if let Some(last) = last
        && kind <= last
    {
        return Err(WireFault::Order);
    }
    let (len, rest) = split_bigsize(rest)?;
    if len > rest.len() as u64 {
        return Err(WireFault::Cut);
    }
    let (value, rest) = rest.split_at(len as usize);
    Ok((Tlv { kind, value }, rest))
}

/// Reads bytes that are a TLV stream as a whole; empty bytes are the empty stream. Values are
/// borrowed from the input: only the list is allocated. (BOLT 1, Type-Length-Value Format.)
///
/// The fault is that of the first faulty record, and of that record the first of: its type (`Cut`,
/// `NotMinimal`), `Order` if the type isn't above the one before, its length (`Cut`, `NotMinimal`),
/// its value (`Cut`). `NoMemory` says nothing about the bytes. Which types are known, and that
/// unknown even ones are rejected, is up to the caller.
pub fn read_tlvs<'a>(alloc: Global, bytes: &'a [u8]) -> Result<Tlvs<'a>, WireFault>
    // It returns records if and only if the bytes are a stream of them, unless memory runs out.
    ensures found { IfOk result (λ tlvs. IsTlvStream tlvs bytes.now) }
    ensures only { (records : List TlvRecord) → IsTlvStream records bytes.now →
        MatchResult result (λ tlvs. tlvs ≡ records) (λ e. e ≡ WireFault.NoMemory) }

    ensures fault { IfErr result (λ e. (e ≡ WireFault.NoMemory) ⊎ IsFirstFault bytes.now e) }

    // Fewer than two bytes contain no record, and allocate nothing.
    ensures memory { length bytes.now < 2 → Sees (λ tlvs. tlvs) result (tlvs_of bytes.now) }

    // The same in one clause, for readers built on this one.
    ensures exact { Gives WireFault.NoMemory (λ tlvs. tlvs) result (tlvs_of bytes.now) }
{
    let mut items = Vec::new(alloc);
    let mut last = None;
    let mut rest = bytes;
    while !rest.is_empty() {
        let (tlv, after) = split_tlv(last, rest)?;
        let Ok(()) = items.push(tlv) else {
            return Err(WireFault::NoMemory);
        };
        last = Some(tlv.kind);
        rest = after;
    }
    Ok(Tlvs { items })
}

/// Appends a record: type and length as BigSize, then the value. That types increase is up to the
/// caller. Allocates only if the vector lacks room. On `NoMemory` the vector is unchanged. (BOLT 1,
/// Type-Length-Value Format.)
pub fn write_tlv(out: &mut Vec<u8>, kind: u64, value: &[u8]) -> Result<(), NoMemory>
    ensures ok { OnOk result (out.new.items ≡
        out.old.items ++ record_bytes (record { kind = kind; value = value.now })) }
    ensures err { OnErr result (out.new.items ≡ out.old.items) }

    // It fails only if the vector lacked room; capacity never shrinks.
    ensures full { OnErr result (vec_capacity out.old <
        vec_len out.old + length (record_bytes (record { kind = kind; value = value.now }))) }
    ensures room { vec_capacity out.old ≤ vec_capacity out.new }
{
    let start = out.len();
    let written = append_parts(out, kind, value);
    if written.is_err() {
        out.truncate(start);
    }
    written
}

/// Appends the three parts of a record, or some of them if memory runs out.
fn append_parts(out: &mut Vec<u8>, kind: u64, value: &[u8]) -> Result<(), NoMemory>
    ensures ok { OnOk result (out.new.items ≡
        out.old.items ++ record_bytes (record { kind = kind; value = value.now })) }
    ensures err { OnErr result ((more : List ℕ) × (out.new.items ≡ out.old.items ++ more)) }
    ensures full { OnErr result (vec_capacity out.old <
        vec_len out.old + length (record_bytes (record { kind = kind; value = value.now }))) }
    ensures room { vec_capacity out.old ≤ vec_capacity out.new }
{
    write_bigsize(out, kind)?;
    write_bigsize(out, value.len() as u64)?;
    out.extend_from_slice(value)
}

/// The laws of TLV streams, stated by the contract; the call does nothing.
///
/// Reading bytes from left to right returns records if and only if the bytes are a stream of them,
/// so bytes are the stream of at most one list of records.
pub fn one_stream()
    ensures read { (records : List TlvRecord) (b : List ℕ) → ((i : ℕ) → slice_index b i < 256) →
        tlvs_of b ≡ Ok records → IsTlvStream records b }
    ensures spelled { (records : List TlvRecord) (b : List ℕ) →
        IsTlvStream records b → tlvs_of b ≡ Ok records }
    ensures once { (m n : List TlvRecord) (b : List ℕ) →
        IsTlvStream m b → IsTlvStream n b → m ≡ n }
{}
