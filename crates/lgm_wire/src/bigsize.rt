//! BigSize: a number of up to 64 bits in one, three, five or nine bytes, whichever is shortest
//! (BOLT 1, Fundamental Types and Appendix A).

ghost use Rattle.std.specs.Prelude.{◌≡◌, ℕ, ◌≤◌, ◌<◌, ◌↔◌, ◌⊎◌, ◌++◌, ◌+◌, length, take};
ghost use Rattle.std.specs.Prelude.{vec_len, vec_capacity, OnOk, OnErr, IfErr, List};
ghost use Rattle.std.specs.Int.{w16, w32, w64};
ghost use Rattle.lgm_wire.specs.BigSize.{IsBigSize, bigsize_bytes, form_len, form_value};
ghost use Rattle.lgm_wire.specs.reading.Reading.{Sees};
ghost use Rattle.lgm_wire.specs.reading.BigSizeReading.{bigsize_at, bigsize_with_len, long_form_at};

use crate::fault::{NoMemory, WireFault};

/// The number after `0xfd`, and the bytes after it.
fn split_u16(bytes: &[u8]) -> Result<(u64, &[u8]), WireFault>
    ensures { Sees (λ x. (x.0, x.1.now)) result (long_form_at w16 0xfd bytes.now) }
{
    let (digits, rest) = bytes.split_first_chunk::<2>().ok_or(WireFault::Cut)?;
    let number = u16::from_be_bytes(*digits);
    if number < 0xfd {
        return Err(WireFault::NotMinimal);
    }
    Ok((u64::from(number), rest))
}

/// The number after `0xfe`, and the bytes after it.
fn split_u32(bytes: &[u8]) -> Result<(u64, &[u8]), WireFault>
    ensures { Sees (λ x. (x.0, x.1.now)) result (long_form_at w32 0x10000 bytes.now) }
{
    let (digits, rest) = bytes.split_first_chunk::<4>().ok_or(WireFault::Cut)?;
    let number = u32::from_be_bytes(*digits);
    if number < 0x1_0000 {
        return Err(WireFault::NotMinimal);
    }
    Ok((u64::from(number), rest))
}

/// The number after `0xff`, and the bytes after it.
fn split_u64(bytes: &[u8]) -> Result<(u64, &[u8]), WireFault>
    ensures { Sees (λ x. (x.0, x.1.now)) result (long_form_at w64 0x100000000 bytes.now) }
{
    let (digits, rest) = bytes.split_first_chunk::<8>().ok_or(WireFault::Cut)?;
    let number = u64::from_be_bytes(*digits);
    if number < 0x1_0000_0000 {
        return Err(WireFault::NotMinimal);
    }
    Ok((number, rest))
}

/// The leading number, and the bytes after it.
#[tactic(auto, unfolding(crate::specs::reading::BigSizeReading::bigsize_at))]
pub(crate) fn split_bigsize(bytes: &[u8]) -> Result<(u64, &[u8]), WireFault>
    ensures { Sees (λ x. (x.0, x.1.now)) result (bigsize_at bytes.now) }
{
    match bytes {
        [] => Err(WireFault::Cut),
        [0xfd, rest @ ..] => split_u16(rest),
        [0xfe, rest @ ..] => split_u32(rest),
        [0xff, rest @ ..] => split_u64(rest),
        [small, rest @ ..] => Ok((u64::from(*small), rest)),
    }
}

/// Reads the BigSize at the start of the bytes: the number, and its length of 1, 3, 5 or 9 bytes.
/// The bytes after it are ignored. (BOLT 1, Fundamental Types.)
///
/// `Cut` if the bytes end before the length that the first byte calls for, or are empty;
/// `NotMinimal` if the encoding is complete but not the shortest. There is no other fault, and
/// nothing is allocated.
pub fn read_bigsize(bytes: &[u8]) -> Result<(u64, usize), WireFault>
    // It returns v and n if and only if the first n bytes encode v.
    ensures value { (v n : ℕ) →
        (result ≡ Ok (v, n)) ↔ ((n ≤ length bytes.now) × IsBigSize v (take n bytes.now)) }

    // The bytes end before the length that the first byte calls for.
    ensures cut { (result ≡ Err WireFault.Cut) ↔ (length bytes.now < form_len bytes.now) }

    // The encoding is complete, and its number has a shorter one.
    ensures not_minimal { (result ≡ Err WireFault.NotMinimal) ↔
        ((form_len bytes.now ≤ length bytes.now)
        × (length (bigsize_bytes (form_value bytes.now)) < form_len bytes.now)) }

    // There is no other fault.
    ensures faults { IfErr result (λ e. (e ≡ WireFault.Cut) ⊎ (e ≡ WireFault.NotMinimal)) }

    // The same in one clause, for readers built on this one.
    ensures exact { result ≡ bigsize_with_len bytes.now }
{
    let (value, rest) = split_bigsize(bytes)?;
    Ok((value, bytes.len() - rest.len()))
}

/// Appends the BigSize encoding of a number, 1, 3, 5 or 9 bytes. Allocates only if the vector lacks
/// room. On `NoMemory` the vector is unchanged. (BOLT 1, Fundamental Types.)
pub fn write_bigsize(out: &mut Vec<u8>, value: u64) -> Result<(), NoMemory>
    ensures ok { OnOk result (out.new.items ≡ out.old.items ++ bigsize_bytes value) }
    ensures err { OnErr result (out.new.items ≡ out.old.items) }

    // It fails only if the vector lacked room; capacity never shrinks.
    ensures full { OnErr result (vec_capacity out.old < vec_len out.old + length (bigsize_bytes value)) }
    ensures room { vec_capacity out.old ≤ vec_capacity out.new }
{
    match value {
        0..=0xfc => out.extend_from_slice(&[value as u8]),
        0xfd..=0xffff => {
            let [a, b] = (value as u16).to_be_bytes();
            out.extend_from_slice(&[0xfd, a, b])
        }
        0x1_0000..=0xffff_ffff => {
            let [a, b, c, d] = (value as u32).to_be_bytes();
            out.extend_from_slice(&[0xfe, a, b, c, d])
        }
        _ => {
            let [a, b, c, d, e, f, g, h] = value.to_be_bytes();
            out.extend_from_slice(&[0xff, a, b, c, d, e, f, g, h])
        }
    }
}

/// A law of BigSize, stated by the contract; the call does nothing.
///
/// The encoding is prefix-free, so a number that was written is read back, whatever follows.
pub fn one_spelling()
    ensures { (m n : ℕ) (a b x y : List ℕ) → IsBigSize m a → IsBigSize n b →
        a ++ x ≡ b ++ y → (m ≡ n) × (a ≡ b) × (x ≡ y) }
{}
