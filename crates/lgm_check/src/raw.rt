//! The bytes of a stored message.

ghost use Rattle.std.specs.Prelude.{◌≡◌, IfOk, IfSome};

use lgm_gossip::Bytes;
use std::alloc::{AllocError, Global};
use std::marker::Model;

/// The bytes of a message whose usual length is `N`. Those of a message of that length are part of the value, so that a
/// shared row is a single allocation. Contracts see the bytes.
#[derive(Debug, Drop)]
pub(crate) struct Raw<const N: usize> {
    storage: Storage<N>,
}

/// Where the bytes are.
#[derive(Debug, Drop)]
enum Storage<const N: usize> {
    /// In the value.
    Inline([u8; N]),
    /// In an allocation of their own.
    Heap(Bytes),
}

impl<const N: usize> Model for Raw<N> {
    ghost use Rattle.std.specs.Prelude.{ℕ, List};
    ghost use Rattle.lgm_check.specs.inner.Raw.{bytes_in};

    ghost Value = { List ℕ };

    ghost view = { λ raw. bytes_in raw.storage };
}

impl<const N: usize> Raw<N> {
    pub(crate) fn copied(alloc: Global, bytes: &[u8]) -> Result<Raw<N>, AllocError>
        ensures { IfOk result (λ raw. raw ≡ bytes.now) }
    {
        let storage = match inline(bytes) {
            Some(array) => Storage::Inline(array),
            None => Storage::Heap(Bytes::from_slice(alloc, bytes)?),
        };
        Ok(Raw { storage })
    }

    #[inline(always)]
    pub(crate) fn as_slice(&self) -> &[u8]
        ensures { result.now ≡ self.now }
    {
        match &self.storage {
            Storage::Inline(array) => array.as_slice(),
            Storage::Heap(bytes) => bytes.as_slice(),
        }
    }
}

/// The bytes as an array, if they have its length.
fn inline<const N: usize>(bytes: &[u8]) -> Option<[u8; N]>
    ensures { IfSome result (λ array. array ≡ bytes.now) }
{
    match bytes.split_first_chunk::<N>() {
        Some((array, rest)) if rest.is_empty() => Some(*array),
        _ => None,
    }
}
