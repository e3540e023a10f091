//! Encoding, 32 bytes at a time.

ghost use Rattle.std.specs.Prelude.{◌≡◌, ℕ, ◌+◌, ◌*◌, ◌<◌, ◌≤◌, ◌++◌, length, take};
ghost use Rattle.std.specs.Prelude.{slice_index, slice_range, vec_len, vec_capacity, OnOk, OnErr};
ghost use Rattle.hex.specs.Hex.{encode_lower, lower_digits};
ghost use Rattle.lgm_hex.specs.inner.Digits.{IsEncoded};

use core::mem::replace_with;
use std::alloc::AllocError;
use std::simd::prelude::*;

/// The digit of a value below 16, in lower case.
#[inline(always)]
fn digit(value: u8) -> u8
    requires { value < 16 }
    ensures { result ≡ slice_index lower_digits value }
{
    let letter = if value < 10 { 0 } else { b'a' - 10 - b'0' };
    b'0' + value + letter
}

/// Appends two digits for each byte, one byte at a time. There is room for them.
#[inline(always)]
fn push_each(text: &mut Vec<u8>, bytes: &[u8])
    requires { vec_len text.old + 2 * length bytes.now ≤ vec_capacity text.old }
    ensures { text.new.items ≡ text.old.items ++ encode_lower bytes.now }
{
    for i in 0..bytes.len() {
        let byte = bytes[i];
        text.push_reserved(digit(byte >> 4));
        text.push_reserved(digit(byte & 0x0f));
    }
}

/// The digits of 32 values, in lower case.
#[inline(always)]
fn digits_of(values: u8x32) -> u8x32
    requires { (k : ℕ) → k < 32 → slice_index values k < 16 }
    ensures len { length result ≡ 32 }
    ensures lanes { (k : ℕ) → k < 32
        → slice_index result k ≡ slice_index lower_digits (slice_index values k) }
{
    u8x32::from_slice(b"0123456789abcdef0123456789abcdef").swizzle_dyn_within::<16>(values)
}

/// The digits of 32 bytes, two per byte.
#[inline(always)]
fn pairs_of(bytes: u8x32) -> u8x64
    ensures len { length result ≡ 64 }
    ensures lanes { IsEncoded bytes result 32 }
{
    let high = digits_of(bytes >> u8x32::splat(4));
    let low = digits_of(bytes & u8x32::splat(15));
    high.shuffle(
        low,
        [
            0, 32, 1, 33, 2, 34, 3, 35, 4, 36, 5, 37, 6, 38, 7, 39, 8, 40, 9, 41, 10, 42, 11, 43,
            12, 44, 13, 45, 14, 46, 15, 47, 16, 48, 17, 49, 18, 50, 19, 51, 20, 52, 21, 53, 22, 54,
            23, 55, 24, 56, 25, 57, 26, 58, 27, 59, 28, 60, 29, 61, 30, 62, 31, 63,
        ],
    )
}

/// Makes the text 64 bytes longer. There is room for them.
///
/// The caller overwrites them at once, so no code for the zeros remains.
#[inline(always)]
fn lengthen(text: &mut Vec<u8>)
    requires { vec_len text.old + 64 ≤ vec_capacity text.old }
    ensures front { take (length text.old.items) text.new.items ≡ text.old.items }
    ensures len { vec_len text.new ≡ vec_len text.old + 64 }
    ensures capacity { vec_capacity text.old ≤ vec_capacity text.new }
{
    for _byte in 0..64usize {
        text.push_reserved(0);
    }
}

/// Writes the digits of 32 bytes over the last 64 bytes, which begin at an index.
#[inline(always)]
fn put_at_end(out: &mut [u8], at: usize, digits: u8x64)
    requires { at + 64 ≡ length out.old }
    ensures { out.new ≡ take at out.old ++ digits }
{
    digits.copy_to_slice(&mut out[at..]);
}

/// Appends the digits of the 32 bytes from an index on. There is room for them.
#[inline(always)]
fn push_block(text: &mut Vec<u8>, bytes: &[u8], at: usize)
    requires within { at + 32 ≤ length bytes.now }
    requires room { vec_len text.old + 64 ≤ vec_capacity text.old }
    ensures items { text.new.items ≡ text.old.items ++ encode_lower (slice_range bytes.now at (at + 32)) }
    ensures len { vec_len text.new ≡ vec_len text.old + 64 }
    ensures capacity { vec_capacity text.old ≤ vec_capacity text.new }
{
    let digits = pairs_of(u8x32::from_slice(&bytes[at..]));
    let start = text.len();
    lengthen(text);
    put_at_end(text.as_mut_slice(), start, digits);
}

/// Appends two digits for each byte, in blocks of 32 bytes. There is room for them.
///
/// The last block is whole as well: the digits that it has in common with the one before are dropped first.
#[inline(always)]
fn push_blocks(text: &mut Vec<u8>, bytes: &[u8])
    requires some { 32 ≤ length bytes.now }
    requires room { vec_len text.old + 2 * length bytes.now ≤ vec_capacity text.old }
    ensures { text.new.items ≡ text.old.items ++ encode_lower bytes.now }
{
    let start = text.len();
    let last = bytes.len() - 32;
    for i in 0..(bytes.len() - 1) / 32 {
        push_block(text, bytes, 32 * i);
    }
    text.truncate(start + 2 * last);
    push_block(text, bytes, last);
}

/// The text with two digits for each byte appended. There is room for them.
///
/// The text is passed by value, so the compiler keeps its length in a register: behind a reference, a digit that is
/// written could be part of the length for all that it knows, and each would be written alone.
#[inline(always)]
fn with_digits(mut text: Vec<u8>, bytes: &[u8]) -> (Vec<u8>, ())
    requires { vec_len text + 2 * length bytes.now ≤ vec_capacity text }
    ensures { result.0.items ≡ text.items ++ encode_lower bytes.now }
{
    if bytes.len() < 32 {
        push_each(&mut text, bytes);
    } else {
        push_blocks(&mut text, bytes);
    }
    (text, ())
}

/// Appends the bytes in lower-case digits. If memory runs out the text is unchanged.
pub fn append(text: &mut Vec<u8>, bytes: &[u8]) -> Result<(), AllocError>
    ensures ok { OnOk result (text.new.items ≡ text.old.items ++ encode_lower bytes.now) }
    ensures err { OnErr result (text.new.items ≡ text.old.items) }
{
    text.reserve(2 * bytes.len())?;
    replace_with(text, bytes, with_digits);
    Ok(())
}
