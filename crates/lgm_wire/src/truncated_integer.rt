//! Truncated integers, `tu16`, `tu32` and `tu64`: a big-endian number without leading zero bytes,
//! whose length is known from elsewhere (BOLT 1, Fundamental Types).

ghost use Rattle.std.specs.Prelude.{◌≡◌, ℕ, List, ◌++◌, ◌≤◌, ◌<◌, ◌^◌, ◌↔◌, ◌⊎◌, ◌==◌, ◌+◌, take_while};
ghost use Rattle.std.specs.Prelude.{length, vec_len, vec_capacity, OnOk, OnErr, IfErr};
ghost use Rattle.lgm_wire.specs.TruncatedInteger.{IsTruncatedInteger, StartsWithZero};
ghost use Rattle.lgm_wire.specs.TruncatedInteger.{number_of, truncated_bytes};
ghost use Rattle.lgm_wire.specs.reading.TruncatedIntegerReading.{truncated_of};

use crate::fault::{NoMemory, WireFault};

/// The bytes as a big-endian number.
fn number_of(bytes: &[u8]) -> u64
    requires { length bytes.now ≤ 8 }
    ensures { result ≡ number_of bytes.now }
{
    let mut number = 0;
    for byte in bytes {
        number = number * 256 + u64::from(*byte);
    }
    number
}

/// Reads bytes that are a truncated integer as a whole, of up to `max` bytes: 2 for `tu16`, 4 for
/// `tu32` and 8 for `tu64`. Empty bytes are zero. (BOLT 1, Fundamental Types.)
///
/// `TooLong` if there are more than `max` bytes, else `NotMinimal` if the first byte is zero. There
/// is no other fault, and nothing is allocated.
pub fn read_tu(bytes: &[u8], max: usize) -> Result<u64, WireFault>
    requires some { 1 ≤ max }
    requires fits { max ≤ 8 }

    // It returns v if and only if the bytes, at most `max`, encode v.
    ensures value { (v : ℕ) →
        (result ≡ Ok v) ↔ ((length bytes.now ≤ max) × IsTruncatedInteger v bytes.now) }

    ensures too_long { (result ≡ Err WireFault.TooLong) ↔ (max < length bytes.now) }
    ensures not_minimal { (result ≡ Err WireFault.NotMinimal) ↔
        ((length bytes.now ≤ max) × StartsWithZero bytes.now) }

    // There is no other fault.
    ensures faults { IfErr result (λ e. (e ≡ WireFault.TooLong) ⊎ (e ≡ WireFault.NotMinimal)) }

    // The same in one clause, for readers built on this one.
    ensures exact { result ≡ truncated_of max bytes.now }
{
    if bytes.len() > max {
        return Err(WireFault::TooLong);
    }
    if let [0, ..] = bytes {
        return Err(WireFault::NotMinimal);
    }
    Ok(number_of(bytes))
}

/// The number of leading zero bytes.
fn leading_zeros(bytes: &[u8]) -> usize
    ensures { result ≡ length (take_while (λ byte. byte == 0) bytes.now) }
{
    bytes.iter().take_while(|byte| **byte == 0).count()
}

/// Appends a number as a truncated integer of 0 to 8 bytes. Allocates only if the vector lacks
/// room. On `NoMemory` the vector is unchanged. (BOLT 1, Fundamental Types.)
pub fn write_tu(out: &mut Vec<u8>, value: u64) -> Result<(), NoMemory>
    ensures ok { OnOk result (out.new.items ≡ out.old.items ++ truncated_bytes value) }
    ensures err { OnErr result (out.new.items ≡ out.old.items) }

    // It fails only if the vector lacked room; capacity never shrinks.
    ensures full { OnErr result (vec_capacity out.old < vec_len out.old + length (truncated_bytes value)) }
    ensures room { vec_capacity out.old ≤ vec_capacity out.new }
{
    let digits = value.to_be_bytes();
    let zeros = leading_zeros(&digits);
    out.extend_from_slice(&digits[zeros..])?;
    Ok(())
}

/// The laws of truncated integers, stated by the contract; the call does nothing.
///
/// Each number of up to 64 bits has exactly one encoding, the one that `write_tu` appends. It is no
/// longer than the number needs, so what was written is read back.
pub fn one_truncated_spelling()
    ensures spelled { (v : ℕ) → v < 2 ^ 64 → IsTruncatedInteger v (truncated_bytes v) }
    ensures one { (v : ℕ) (a b : List ℕ) → IsTruncatedInteger v a → IsTruncatedInteger v b → a ≡ b }
    ensures short { (v n : ℕ) (b : List ℕ) →
        v < 256 ^ n → IsTruncatedInteger v b → length b ≤ n }
{}
