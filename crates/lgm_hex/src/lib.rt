//! Hexadecimal encoding and decoding in bulk, under the contracts of the crate `hex`, fast enough for the lines of a
//! script.
//!
//! A digit is one of `0` to `9`, `a` to `f` and `A` to `F`; two of them encode a byte, high nibble first. Output is
//! always lower case.
//!
//! Sixty-four digits are decoded at a time, without a branch on their values, and 32 bytes encoded. Shorter input,
//! and input with an error, is passed to `hex`, so the errors are those of `hex`.
#![tactic(auto)]

mod decode;
mod encode;

pub use crate::decode::{decode_array, decode_into, decode_to_slice};
pub use crate::encode::append;
