//! Fields at their offsets in a message.

ghost use Rattle.std.specs.Prelude.{◌≡◌, ◌+◌, ◌≤◌, length, drop};
ghost use Rattle.std.specs.Int.{w8, w16, w32, w64};
ghost use Rattle.lgm_gossip.specs.Places.{part, number_in};

use crate::borrowed::{BorrowedBytes, Signature};
use lgm_wire::Point;

/// The one-byte number at an offset.
#[inline(always)]
pub(crate) fn number8(bytes: &[u8], at: usize) -> u8
    requires { at + 1 ≤ length bytes.now }
    ensures { result ≡ number_in w8 at bytes.now }
{
    let Some(digits) = bytes[at..].first_chunk::<1>() else {
        unreachable!();
    };
    u8::from_be_bytes(*digits)
}

/// The two-byte number at an offset, big-endian.
#[inline(always)]
pub(crate) fn number16(bytes: &[u8], at: usize) -> u16
    requires { at + 2 ≤ length bytes.now }
    ensures { result ≡ number_in w16 at bytes.now }
{
    let Some(digits) = bytes[at..].first_chunk::<2>() else {
        unreachable!();
    };
    u16::from_be_bytes(*digits)
}

/// The four-byte number at an offset, big-endian.
#[inline(always)]
pub(crate) fn number32(bytes: &[u8], at: usize) -> u32
    requires { at + 4 ≤ length bytes.now }
    ensures { result ≡ number_in w32 at bytes.now }
{
    let Some(digits) = bytes[at..].first_chunk::<4>() else {
        unreachable!();
    };
    u32::from_be_bytes(*digits)
}

/// The eight-byte number at an offset, big-endian.
#[inline(always)]
pub(crate) fn number64(bytes: &[u8], at: usize) -> u64
    requires { at + 8 ≤ length bytes.now }
    ensures { result ≡ number_in w64 at bytes.now }
{
    let Some(digits) = bytes[at..].first_chunk::<8>() else {
        unreachable!();
    };
    u64::from_be_bytes(*digits)
}

/// The array of bytes at an offset.
#[inline(always)]
pub(crate) fn array<const N: usize>(bytes: &[u8], at: usize) -> [u8; N]
    requires { at + N ≤ length bytes.now }
    ensures { result ≡ part at N bytes.now }
{
    let Some(array) = bytes[at..].first_chunk::<N>() else {
        unreachable!();
    };
    *array
}

/// The point at an offset.
#[inline(always)]
pub(crate) fn point(bytes: &[u8], at: usize) -> Point
    requires { at + 33 ≤ length bytes.now }
    ensures { result.0 ≡ part at 33 bytes.now }
{
    Point(array(bytes, at))
}

/// The 64 bytes at an offset, borrowed.
#[inline(always)]
fn borrowed_array(bytes: &[u8], at: usize) -> &[u8; 64]
    requires { at + 64 ≤ length bytes.now }
    ensures { result.now ≡ part at 64 bytes.now }
{
    let Some(array) = bytes[at..].first_chunk::<64>() else {
        unreachable!();
    };
    array
}

/// The signature at an offset.
#[inline(always)]
pub(crate) fn signature(bytes: &[u8], at: usize) -> Signature<'_>
    requires { at + 64 ≤ length bytes.now }
    ensures { result ≡ part at 64 bytes.now }
{
    Signature::new(borrowed_array(bytes, at))
}

/// The given number of bytes from an offset on.
#[inline(always)]
pub(crate) fn borrowed(bytes: &[u8], at: usize, len: usize) -> BorrowedBytes<'_>
    requires { at + len ≤ length bytes.now }
    ensures { result ≡ part at len bytes.now }
{
    BorrowedBytes::new(&bytes[at..at + len])
}

/// All bytes from an offset on.
#[inline(always)]
pub(crate) fn rest(bytes: &[u8], at: usize) -> BorrowedBytes<'_>
    requires { at ≤ length bytes.now }
    ensures { result ≡ drop at bytes.now }
{
    BorrowedBytes::new(&bytes[at..])
}
