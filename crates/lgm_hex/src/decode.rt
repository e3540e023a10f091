//! Decoding, 64 digits at a time.

ghost use Rattle.std.specs.Prelude.{◌≡◌, ◌≢◌, ℕ, ◌+◌, ◌*◌, ◌/◌, ◌%◌, ◌<◌, ◌≤◌, ◌⊎◌, [], length};
ghost use Rattle.std.specs.Prelude.{slice_index, vec_capacity, IsTrue, IfErr, OnOk, OnErr, MatchResult};
ghost use Rattle.hex.specs.Hex.{decode_of, decode_sized};
ghost use Rattle.hex.specs.declared.error.FromHexError.TheVariants.{OddLength, OutOfMemory};
ghost use Rattle.lgm_hex.specs.inner.Digits.{IsValue, AreValid, IsWithin, IsDecoded};

use hex::FromHexError;
use std::alloc::Allocator;
use std::simd::prelude::*;

/// The value of each digit, and 16 or more for any other byte.
#[inline(always)]
fn values_of(digits: u8x64) -> u8x64
    ensures { (k : ℕ) → k < 64 → IsValue (slice_index digits k) (slice_index result k) }
{
    // `0` to `9` become the ten largest bytes and then 0 to 9; any other byte becomes 16 or more.
    let number = (digits + u8x64::splat(255 - b'9')).saturating_sub(u8x64::splat(6))
        - u8x64::splat(240);

    // `A` to `F` and `a` to `f` become 0 to 5; any other byte becomes more.
    let letter = (digits & u8x64::splat(0xdf)) - u8x64::splat(b'A');
    number.simd_min(u8x64::splat(10).saturating_add(letter))
}

/// The bytes of 32 pairs of values.
#[inline(always)]
fn joined(values: u8x64) -> u8x32
    ensures len { length result ≡ 32 }
    ensures lanes { AreValid values → (k : ℕ) → k < 32
        → slice_index result k ≡ slice_index values (2 * k) * 16 + slice_index values (2 * k + 1) }
{
    // A pair as a number: its first value, plus 256 times its second.
    let pairs = u16x32::from_le_bytes(values);
    let bytes = (pairs * u16x32::splat(0x1001)) >> u16x32::splat(8);
    bytes.cast::<u8>()
}

/// Writes 32 bytes, and returns the values of their digits. If these are valid, the bytes are right.
#[inline(always)]
fn decode_block(digits: &[u8], out: &mut [u8], at: usize) -> u8x64
    requires room { at + 32 ≤ length out.old }
    requires twice { length digits.now ≡ 2 * length out.old }
    ensures len { length result ≡ 64 }
    ensures bytes { AreValid result → (k : ℕ) → IsWithin at 32 k ⊎ IsDecoded digits.now out.old k
        → IsDecoded digits.now out.new k }
{
    let values = values_of(u8x64::from_slice(&digits[2 * at..]));
    joined(values).copy_to_slice(&mut out[at..]);
    values
}

/// Writes all bytes, the last 32 in a block of their own. If it returns true they are right.
///
/// The last block comes first: so the bytes of a short text are those of one write, and a read of them needn't wait for
/// two.
fn decode_blocks(digits: &[u8], out: &mut [u8]) -> bool
    requires some { 32 ≤ length out.old }
    requires twice { length digits.now ≡ 2 * length out.old }
    ensures { IsTrue result → decode_sized digits.now (length out.new) ≡ Ok out.new }
{
    let mut seen = decode_block(digits, out, out.len() - 32);
    for i in 0..(out.len() - 1) / 32 {
        seen |= decode_block(digits, out, 32 * i);
    }
    seen.simd_lt(u8x64::splat(16)).all()
}

/// Decodes the digits, two per byte of `out`, into `out`.
///
/// The errors are those of `hex::decode_to_slice`: `OddLength` if the number of digits is odd, else
/// `InvalidStringLength` if it isn't twice the length of `out`, else `InvalidHexCharacter` with the first byte that
/// isn't a digit, and its index. The first two leave `out` unchanged; after the last its contents are unspecified.
/// Nothing is allocated.
pub fn decode_to_slice(digits: &[u8], out: &mut [u8]) -> Result<(), FromHexError>
    ensures value { MatchResult (decode_sized digits.now (length out.old))
        (λ bytes. (result ≡ Ok tt) × (out.new ≡ bytes))
        (λ e. result ≡ Err e) }
    ensures same { (length digits.now ≢ 2 * length out.old) → out.new ≡ out.old }
{
    let fits = digits.len() % 2 == 0 && digits.len() / 2 == out.len();
    if fits && out.len() >= 32 && decode_blocks(digits, out) {
        return Ok(());
    }
    hex::decode_to_slice(digits, out)
}

/// Decodes the digits into a vector that is reused, replacing its contents. Allocates only if its capacity is too
/// small.
///
/// The errors are those of `hex::decode`, and leave the vector empty: `OddLength` if the number of digits is odd, else
/// `OutOfMemory` if the bytes can't be allocated, else `InvalidHexCharacter` with the first byte that isn't a digit,
/// and its index.
pub fn decode_into<A: Allocator>(out: &mut Vec<u8, A>, digits: &[u8]) -> Result<(), FromHexError>
    ensures ok { OnOk result (decode_of digits.now ≡ Ok out.new.items) }
    ensures err { IfErr result (λ e. (e ≡ OutOfMemory) ⊎ (decode_of digits.now ≡ Err e)) }
    ensures odd { length digits.now % 2 ≡ 1 → result ≡ Err OddLength }
    ensures empty { OnErr result (out.new.items ≡ []) }

    // If the capacity suffices, the result is that of the digits alone.
    ensures room { length digits.now / 2 ≤ vec_capacity out.old → MatchResult (decode_of digits.now)
        (λ bytes. (result ≡ Ok tt) × (out.new.items ≡ bytes))
        (λ e. result ≡ Err e) }
{
    if digits.len() % 2 != 0 {
        out.clear();
        return Err(FromHexError::OddLength);
    }
    if out.resize(digits.len() / 2, 0).is_err() {
        out.clear();
        return Err(FromHexError::OutOfMemory);
    }
    let decoded = decode_to_slice(digits, out.as_mut_slice());
    if decoded.is_err() {
        out.clear();
    }
    decoded
}

/// Decodes `2 * N` digits, as of a signature, a point or a hash.
///
/// The errors are those of `from_hex` of `hex::FromHex`: `OddLength` if the number of digits is odd, else
/// `InvalidStringLength` if it isn't `2 * N`, else `InvalidHexCharacter` with the first byte that isn't a digit, and
/// its index. Nothing is allocated.
pub fn decode_array<const N: usize>(digits: &[u8]) -> Result<[u8; N], FromHexError>
    ensures { result ≡ decode_sized digits.now N }
{
    let mut out = [0u8; N];
    decode_to_slice(digits, &mut out)?;
    Ok(out)
}
