//! Sequences of eight-byte values.

ghost use Rattle.std.specs.Prelude.{◌≡◌, ℕ, List, IfOk, map};

use crate::sequence::Sequence;
use std::alloc::{AllocError, Global};

/// A value of eight bytes.
pub(crate) trait FixedWidth: Drop {
    /// The value that eight bytes encode.
    ghost value_of: { List ℕ → Self };

    fn from_bytes(bytes: &[u8; 8]) -> Self
        ensures { result ≡ value_of bytes.now };
}

pub(crate) fn decode_all<T: FixedWidth>(
    alloc: Global,
    chunks: &[[u8; 8]],
) -> Result<Sequence<T>, AllocError>
    ensures { IfOk result (λ values. values ≡ map T.value_of chunks.now) }
{
    let mut values = Vec::with_capacity(alloc, chunks.len())?;
    for chunk in chunks {
        values.push(T::from_bytes(chunk))?;
    }
    Ok(Sequence::from_vec(values))
}
