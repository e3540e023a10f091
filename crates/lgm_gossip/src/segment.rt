//! The segments from which the encoding of a message is joined.

ghost use Rattle.std.specs.Prelude.{◌≡◌, ◌+◌, ◌<◌, length, MatchOption, MatchResult, ◌^◌, ◌++◌, ◌↔◌, OnOk, IfOk, Err};
ghost use Rattle.std.specs.List.{flat_map, AllByRecursion};
ghost use Rattle.lgm_gossip.specs.Streams.{bigsize_bytes};
ghost use Rattle.lgm_gossip.specs.inner.Segment.{text, texts, SegmentFits};
ghost use Rattle.std.specs.Int.{w64, to_be_bytes};
ghost use Rattle.lgm_gossip.specs.Fields.{fixed};
ghost use Rattle.lgm_gossip.specs.TimestampList.{pair_bytes, PairFits};

use crate::encode_fault::EncodeFault;
use crate::message::MAX_LEN;
use crate::sequence::Bytes;
use crate::timestamps::Timestamps;
use lgm_wire::{Scid, write_bigsize};
use std::alloc::{AllocError, Global};

/// A part of an encoding, by its content.
#[derive(Clone, Copy)]
pub(crate) enum Segment<'a> {
    /// Raw bytes.
    Bytes(&'a [u8]),
    /// Big-endian numbers of fixed width.
    Number8(u8),
    Number16(u16),
    Number32(u32),
    Number64(u64),
    /// A BigSize.
    Big(u64),
    /// Channel ids, eight bytes each.
    Ids(&'a [Scid]),
    /// Numbers as BigSize, one after the other.
    Bigs(&'a [u64]),
    /// Pairs of timestamps, eight bytes each.
    Pairs(&'a [Timestamps]),
}

pub(crate) fn bigsize_len(value: u64) -> usize
    ensures { result ≡ length (bigsize_bytes value) }
{
    match value {
        0..=0xfc => 1,
        0xfd..=0xffff => 3,
        0x1_0000..=0xffff_ffff => 5,
        _ => 9,
    }
}

/// The room that is left after numbers as BigSize, if they fit.
fn room_after_bigs(room: usize, values: &[u64]) -> Option<usize>
    ensures { MatchOption result (room < length (flat_map bigsize_bytes values.now))
        (λ left. left + length (flat_map bigsize_bytes values.now) ≡ room) }
{
    let mut left = room;
    for value in values {
        left = left.checked_sub(bigsize_len(*value))?;
    }
    Some(left)
}

/// The room that is left after a part, if it fits.
fn room_after(room: usize, segment: &Segment) -> Option<usize>
    ensures { MatchOption result (room < length (text segment.now))
        (λ left. left + length (text segment.now) ≡ room) }
{
    match segment {
        Segment::Bytes(bytes) => room.checked_sub(bytes.len()),
        Segment::Number8(_) => room.checked_sub(1),
        Segment::Number16(_) => room.checked_sub(2),
        Segment::Number32(_) => room.checked_sub(4),
        Segment::Number64(_) => room.checked_sub(8),
        Segment::Big(value) => room.checked_sub(bigsize_len(*value)),
        Segment::Ids(ids) => room.checked_sub(ids.len() * 8),
        Segment::Bigs(values) => room_after_bigs(room, values),
        Segment::Pairs(pairs) => room.checked_sub(pairs.len() * 8),
    }
}

/// The total length of the parts, if it fits two bytes.
pub(crate) fn encoded_len(segments: &[Segment]) -> Result<u16, EncodeFault>
    ensures { MatchResult result (λ len. len ≡ length (texts segments.now))
        (λ e. (e ≡ EncodeFault.TooLong) × (65535 < length (texts segments.now))) }
{
    let mut room = MAX_LEN;
    for segment in segments {
        let Some(left) = room_after(room, segment) else {
            return Err(EncodeFault::TooLong);
        };
        room = left;
    }
    Ok((MAX_LEN - room) as u16)
}

/// A field of `N` bytes as a part.
pub(crate) fn whole<const N: usize>(bytes: &[u8; N]) -> Segment<'_>
    ensures { (fixed N bytes.now).Is (text result) }
{
    Segment::Bytes(bytes)
}

fn write_ids(out: &mut Vec<u8>, ids: &[Scid]) -> Result<(), AllocError>
    ensures text { OnOk result (out.new.items ≡ out.old.items ++ flat_map (to_be_bytes w64) ids.now) }
    ensures fits { OnOk result (AllByRecursion (λ id. id < 2 ^ 64) ids.now) }
{
    for id in ids {
        out.extend_from_slice(&id.to_u64().to_be_bytes())?;
    }
    Ok(())
}

fn write_bigs(out: &mut Vec<u8>, values: &[u64]) -> Result<(), AllocError>
    ensures text { OnOk result (out.new.items ≡ out.old.items ++ flat_map bigsize_bytes values.now) }
    ensures fits { OnOk result (AllByRecursion (λ n. n < 2 ^ 64) values.now) }
{
    for value in values {
        write_bigsize(out, *value)?;
    }
    Ok(())
}

fn write_pairs(out: &mut Vec<u8>, pairs: &[Timestamps]) -> Result<(), AllocError>
    ensures text { OnOk result (out.new.items ≡ out.old.items ++ flat_map pair_bytes pairs.now) }
    ensures fits { OnOk result (AllByRecursion PairFits pairs.now) }
{
    for pair in pairs {
        out.extend_from_slice(&pair.node_1.to_be_bytes())?;
        out.extend_from_slice(&pair.node_2.to_be_bytes())?;
    }
    Ok(())
}

fn write(out: &mut Vec<u8>, segment: &Segment) -> Result<(), AllocError>
    ensures text { OnOk result (out.new.items ≡ out.old.items ++ text segment.now) }
    ensures fits { OnOk result (SegmentFits segment.now) }
{
    match *segment {
        Segment::Bytes(bytes) => out.extend_from_slice(bytes)?,
        Segment::Number8(n) => out.extend_from_slice(&n.to_be_bytes())?,
        Segment::Number16(n) => out.extend_from_slice(&n.to_be_bytes())?,
        Segment::Number32(n) => out.extend_from_slice(&n.to_be_bytes())?,
        Segment::Number64(n) => out.extend_from_slice(&n.to_be_bytes())?,
        Segment::Big(n) => write_bigsize(out, n)?,
        Segment::Ids(ids) => write_ids(out, ids)?,
        Segment::Bigs(values) => write_bigs(out, values)?,
        Segment::Pairs(pairs) => write_pairs(out, pairs)?,
    }
    Ok(())
}

/// The bytes of the parts, one after the other. It allocates once, and nothing if they are too long.
pub(crate) fn join(alloc: Global, segments: &[Segment]) -> Result<Bytes, EncodeFault>
    ensures too_long { (result ≡ Err EncodeFault.TooLong) ↔ (65535 < length (texts segments.now)) }
    ensures text { IfOk result (λ bytes. bytes ≡ texts segments.now) }
    ensures fits { IfOk result (λ _. AllByRecursion SegmentFits segments.now) }
{
    let len = encoded_len(segments)?;
    let mut out = Vec::with_capacity(alloc, usize::from(len))?;
    for segment in segments {
        write(&mut out, segment)?;
    }
    Ok(Bytes::from_vec(out))
}
