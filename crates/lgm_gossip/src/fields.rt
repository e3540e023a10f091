//! Parsers of fields: each returns the leading field, and the bytes after it.

ghost use Rattle.std.specs.Prelude.{◌≡◌};
ghost use Rattle.std.specs.Int.{w8, w16, w32};
ghost use Rattle.lgm_wire.specs.reading.Reading.{Sees};
ghost use Rattle.lgm_gossip.specs.reading.FieldReading.{fixed_at, number_at, counted_at};

use crate::fault::DecodeFault;

/// A field of `N` bytes.
pub fn fixed<const N: usize>(bytes: &[u8]) -> Result<([u8; N], &[u8]), DecodeFault>
    ensures { Sees (λ x. (x.0, x.1.now)) result (fixed_at N bytes.now) }
{
    match bytes.split_first_chunk::<N>() {
        Some((front, rest)) => Ok((*front, rest)),
        None => Err(DecodeFault::Cut),
    }
}

/// A number of one byte.
pub fn number8(bytes: &[u8]) -> Result<(u8, &[u8]), DecodeFault>
    ensures { Sees (λ x. (x.0, x.1.now)) result (number_at w8 bytes.now) }
{
    let (front, rest) = fixed::<1>(bytes)?;
    Ok((u8::from_be_bytes(front), rest))
}

/// A number of two bytes.
pub fn number16(bytes: &[u8]) -> Result<(u16, &[u8]), DecodeFault>
    ensures { Sees (λ x. (x.0, x.1.now)) result (number_at w16 bytes.now) }
{
    let (front, rest) = fixed::<2>(bytes)?;
    Ok((u16::from_be_bytes(front), rest))
}

/// A number of four bytes.
pub fn number32(bytes: &[u8]) -> Result<(u32, &[u8]), DecodeFault>
    ensures { Sees (λ x. (x.0, x.1.now)) result (number_at w32 bytes.now) }
{
    let (front, rest) = fixed::<4>(bytes)?;
    Ok((u32::from_be_bytes(front), rest))
}

/// A field of `len` bytes, borrowed from the input.
pub fn segment(len: usize, bytes: &[u8]) -> Result<(&[u8], &[u8]), DecodeFault>
    ensures { Sees (λ x. (x.0.now, x.1.now)) result (fixed_at len bytes.now) }
{
    if bytes.len() < len {
        return Err(DecodeFault::Cut);
    }
    Ok(bytes.split_at(len))
}

/// A field after its length of two bytes.
pub fn counted(bytes: &[u8]) -> Result<(&[u8], &[u8]), DecodeFault>
    ensures { Sees (λ x. (x.0.now, x.1.now)) result (counted_at bytes.now) }
{
    let (len, rest) = number16(bytes)?;
    segment(usize::from(len), rest)
}
