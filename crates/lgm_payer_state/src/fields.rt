//! Fields: numbers, flags and bytes.

ghost use Rattle.std.specs.Prelude.{◌≡◌, ◌++◌, IfOk, OnOk};
ghost use Rattle.std.specs.Int.{w8, w16, w32, w64};
ghost use Rattle.lgm_wire.specs.reading.Reading.{Sees};
ghost use Rattle.lgm_payer_state.specs.Written.{IsWritten, number_bytes, flag_bytes, counted_bytes};
ghost use Rattle.lgm_payer_state.specs.reading.Reading.{fixed_at, number_at, flag_at, counted_at};

use crate::state_fault::StateFault;
use std::alloc::AllocError;

/// Writes a number in one byte.
#[tactic(auto, unfolding(crate::specs::Written::number_bytes, crate::specs::reading::Reading::number_at, crate::specs::reading::Reading::fixed_at))]
pub(crate) fn write8(number: u8, out: &mut Vec<u8>) -> Result<(), AllocError>
    ensures { OnOk result (IsWritten (number_bytes w8) (number_at w8) number out.old.items out.new.items) }
{
    out.extend_from_slice(&number.to_be_bytes())
}

/// Writes a number in two bytes.
#[tactic(auto, unfolding(crate::specs::Written::number_bytes, crate::specs::reading::Reading::number_at, crate::specs::reading::Reading::fixed_at))]
pub(crate) fn write16(number: u16, out: &mut Vec<u8>) -> Result<(), AllocError>
    ensures { OnOk result (IsWritten (number_bytes w16) (number_at w16) number out.old.items out.new.items) }
{
    out.extend_from_slice(&number.to_be_bytes())
}

/// Writes a number in four bytes.
#[tactic(auto, unfolding(crate::specs::Written::number_bytes, crate::specs::reading::Reading::number_at, crate::specs::reading::Reading::fixed_at))]
pub(crate) fn write32(number: u32, out: &mut Vec<u8>) -> Result<(), AllocError>
    ensures { OnOk result (IsWritten (number_bytes w32) (number_at w32) number out.old.items out.new.items) }
{
    out.extend_from_slice(&number.to_be_bytes())
}

/// Writes a number in eight bytes.
#[tactic(auto, unfolding(crate::specs::Written::number_bytes, crate::specs::reading::Reading::number_at, crate::specs::reading::Reading::fixed_at))]
pub(crate) fn write64(number: u64, out: &mut Vec<u8>) -> Result<(), AllocError>
    ensures { OnOk result (IsWritten (number_bytes w64) (number_at w64) number out.old.items out.new.items) }
{
    out.extend_from_slice(&number.to_be_bytes())
}

/// Writes so many bytes.
pub(crate) fn write_fixed<const N: usize>(
    bytes: &[u8; N],
    out: &mut Vec<u8>,
) -> Result<(), AllocError>
    ensures { OnOk result (IsWritten (λ x. x) (fixed_at N) bytes.now out.old.items out.new.items) }
{
    out.extend_from_slice(bytes)
}

/// The first bytes, and those behind them.
#[tactic(auto, unfolding(crate::specs::Written::number_bytes, crate::specs::reading::Reading::number_at, crate::specs::reading::Reading::fixed_at))]
pub(crate) fn fixed<const N: usize>(bytes: &[u8]) -> Result<([u8; N], &[u8]), StateFault>
    ensures given { Sees (λ x. (x.0, x.1.now)) result (fixed_at N bytes.now) }
    ensures exact { IfOk result (λ x. bytes.now ≡ x.0 ++ x.1.now) }
{
    match bytes.split_first_chunk::<N>() {
        Some((front, rest)) => Ok((*front, rest)),
        None => Err(StateFault::Damaged),
    }
}

/// A number of one byte, and the bytes behind it.
#[tactic(auto, unfolding(crate::specs::Written::number_bytes, crate::specs::reading::Reading::number_at, crate::specs::reading::Reading::fixed_at))]
pub(crate) fn number8(bytes: &[u8]) -> Result<(u8, &[u8]), StateFault>
    ensures given { Sees (λ x. (x.0, x.1.now)) result (number_at w8 bytes.now) }
    ensures exact { IfOk result (λ x. bytes.now ≡ number_bytes w8 x.0 ++ x.1.now) }
{
    let (front, rest) = fixed::<1>(bytes)?;
    Ok((u8::from_be_bytes(front), rest))
}

/// A number of two bytes, and the bytes behind it.
#[tactic(auto, unfolding(crate::specs::Written::number_bytes, crate::specs::reading::Reading::number_at, crate::specs::reading::Reading::fixed_at))]
pub(crate) fn number16(bytes: &[u8]) -> Result<(u16, &[u8]), StateFault>
    ensures given { Sees (λ x. (x.0, x.1.now)) result (number_at w16 bytes.now) }
    ensures exact { IfOk result (λ x. bytes.now ≡ number_bytes w16 x.0 ++ x.1.now) }
{
    let (front, rest) = fixed::<2>(bytes)?;
    Ok((u16::from_be_bytes(front), rest))
}

/// A number of four bytes, and the bytes behind it.
#[tactic(auto, unfolding(crate::specs::Written::number_bytes, crate::specs::reading::Reading::number_at, crate::specs::reading::Reading::fixed_at))]
pub(crate) fn number32(bytes: &[u8]) -> Result<(u32, &[u8]), StateFault>
    ensures given { Sees (λ x. (x.0, x.1.now)) result (number_at w32 bytes.now) }
    ensures exact { IfOk result (λ x. bytes.now ≡ number_bytes w32 x.0 ++ x.1.now) }
{
    let (front, rest) = fixed::<4>(bytes)?;
    Ok((u32::from_be_bytes(front), rest))
}

/// A number of eight bytes, and the bytes behind it.
#[tactic(auto, unfolding(crate::specs::Written::number_bytes, crate::specs::reading::Reading::number_at, crate::specs::reading::Reading::fixed_at))]
pub(crate) fn number64(bytes: &[u8]) -> Result<(u64, &[u8]), StateFault>
    ensures given { Sees (λ x. (x.0, x.1.now)) result (number_at w64 bytes.now) }
    ensures exact { IfOk result (λ x. bytes.now ≡ number_bytes w64 x.0 ++ x.1.now) }
{
    let (front, rest) = fixed::<8>(bytes)?;
    Ok((u64::from_be_bytes(front), rest))
}

/// Writes whether something is so.
#[tactic(auto, unfolding(crate::specs::Written::flag_bytes, crate::specs::reading::Reading::flag_at))]
pub(crate) fn write_flag(flag: bool, out: &mut Vec<u8>) -> Result<(), AllocError>
    ensures { OnOk result (IsWritten flag_bytes flag_at flag out.old.items out.new.items) }
{
    write8(if flag { 1 } else { 0 }, out)?;
    Ok(())
}

/// Whether something is so, and the bytes behind that.
#[tactic(auto, unfolding(crate::specs::Written::flag_bytes, crate::specs::reading::Reading::flag_at))]
pub(crate) fn flag(bytes: &[u8]) -> Result<(bool, &[u8]), StateFault>
    ensures given { Sees (λ x. (x.0, x.1.now)) result (flag_at bytes.now) }
    ensures exact { IfOk result (λ x. bytes.now ≡ flag_bytes x.0 ++ x.1.now) }
{
    let (number, rest) = number8(bytes)?;
    match number {
        0 => Ok((false, rest)),
        1 => Ok((true, rest)),
        _ => Err(StateFault::Damaged),
    }
}

/// Writes how many bytes there are, and then these.
#[tactic(auto, unfolding(crate::specs::Written::counted_bytes, crate::specs::reading::Reading::counted_at))]
pub(crate) fn write_counted(bytes: &[u8], out: &mut Vec<u8>) -> Result<(), AllocError>
    ensures { OnOk result (IsWritten counted_bytes counted_at bytes.now out.old.items out.new.items) }
{
    write64(bytes.len() as u64, out)?;
    out.extend_from_slice(bytes)?;
    Ok(())
}

/// The bytes behind their number, and those behind them.
#[tactic(auto, unfolding(crate::specs::Written::counted_bytes, crate::specs::reading::Reading::counted_at, crate::specs::reading::Reading::fixed_at))]
pub(crate) fn counted(bytes: &[u8]) -> Result<(&[u8], &[u8]), StateFault>
    ensures given { Sees (λ x. (x.0.now, x.1.now)) result (counted_at bytes.now) }
    ensures exact { IfOk result (λ x. bytes.now ≡ counted_bytes x.0.now ++ x.1.now) }
{
    let (count, rest) = number64(bytes)?;
    if (rest.len() as u64) < count {
        return Err(StateFault::Damaged);
    }
    Ok(rest.split_at(count as usize))
}
