//! Borrowed bytes.

ghost use Rattle.std.specs.Prelude.{◌≡◌};
ghost use Rattle.lgm_gossip.specs.Fields.{fixed};
ghost use Rattle.lgm_gossip.specs.inner.Segment.{text};

use crate::segment::{Segment, whole};
use std::marker::Model;

/// Bytes of a message, borrowed from the input. Contracts see the list.
#[derive(Debug, Drop)]
pub struct BorrowedBytes<'a> {
    bytes: &'a [u8],
}

impl<'a> Model for BorrowedBytes<'a> {
    ghost use Rattle.std.specs.Prelude.{ℕ, List};

    ghost Value = { List ℕ };

    ghost view = { λ borrowed. borrowed.bytes.now };
}

impl<'a> BorrowedBytes<'a> {
    /// Borrows these bytes.
    pub fn new(bytes: &'a [u8]) -> BorrowedBytes<'a>
        ensures { result ≡ bytes.now }
    {
        BorrowedBytes { bytes }
    }

    /// The same bytes, borrowed again.
    pub fn reborrow(&self) -> BorrowedBytes<'a>
        ensures { result ≡ self.now }
    {
        BorrowedBytes { bytes: self.bytes }
    }

    /// The bytes, with the lifetime of the input.
    pub fn as_slice(&self) -> &'a [u8]
        ensures { result.now ≡ self.now }
    {
        self.bytes
    }
}

/// A signature of a message, borrowed from the input. Contracts see the list of its bytes.
#[derive(Debug, Drop)]
pub struct Signature<'a> {
    bytes: &'a [u8; 64],
}

impl<'a> Model for Signature<'a> {
    ghost use Rattle.std.specs.Prelude.{ℕ, List};

    ghost Value = { List ℕ };

    ghost view = { λ signature. signature.bytes.now };
}

impl<'a> Signature<'a> {
    /// Borrows these bytes.
    pub fn new(bytes: &'a [u8; 64]) -> Signature<'a>
        ensures { result ≡ bytes.now }
    {
        Signature { bytes }
    }

    /// The same bytes, borrowed again.
    pub fn reborrow(&self) -> Signature<'a>
        ensures { result ≡ self.now }
    {
        Signature { bytes: self.bytes }
    }

    /// The bytes, with the lifetime of the input.
    pub fn as_array(&self) -> &'a [u8; 64]
        ensures { result.now ≡ self.now }
    {
        self.bytes
    }

    /// The bytes as a segment of an encoding.
    pub(crate) fn segment(&self) -> Segment<'a>
        ensures { (fixed 64 self.now).Is (text result) }
    {
        whole(self.bytes)
    }
}
