//! Bytes at the front of others.

ghost use Rattle.std.specs.Prelude.{◌≡◌, ℕ, List, ◌++◌, ◌<◌, ◌≤◌, length, IfSome, IsNone};
ghost use Rattle.lgm_save.specs.Records.{framed};

use crate::numbers::two_in;

/// What is behind these bytes, if they are in front.
pub(crate) fn strip<'a>(bytes: &'a [u8], front: &[u8]) -> Option<&'a [u8]>
    ensures some { IfSome result (λ rest. bytes.now ≡ front.now ++ rest.now) }
    ensures none { IsNone result → (rest : List ℕ) → bytes.now ≡ front.now ++ rest → ⊥ }
{
    let (start, rest) = cut(bytes, front.len())?;
    if start == front { Some(rest) } else { None }
}

/// So many bytes, and the others.
pub(crate) fn cut(bytes: &[u8], count: usize) -> Option<(&[u8], &[u8])>
    ensures some { IfSome result (λ parts. (bytes.now ≡ parts.0.now ++ parts.1.now) × (length parts.0.now ≡ count)) }
    ensures none { IsNone result → length bytes.now < count }
{
    if bytes.len() < count {
        return None;
    }
    Some(bytes.split_at(count))
}

/// A message behind its length, and what is behind it.
pub(crate) fn unframed(bytes: &[u8]) -> Option<(&[u8], &[u8])>
    ensures some { IfSome result (λ found. (bytes.now ≡ framed found.0.now ++ found.1.now)
        × (length found.0.now ≤ 65535)) }
    ensures none { IsNone result → (message rest : List ℕ) → length message ≤ 65535
        → bytes.now ≡ framed message ++ rest → ⊥ }
{
    let (length, rest) = two_in(bytes)?;
    cut(rest, usize::from(length))
}
