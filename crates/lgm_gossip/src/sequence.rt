//! Lists.

ghost use Rattle.std.specs.Prelude.{◌≡◌, List, length, ◌<◌, IfOk, OnErr};

use std::alloc::{AllocError, Global};
use std::marker::Model;

/// A list in a message. Contracts see the list.
#[derive(Debug, Drop)]
pub struct Sequence<T> {
    items: Vec<T>,
}

impl<T> Model for Sequence<T> {
    ghost Value = { List T };

    ghost view = { λ list. list.items.items };
}

impl<T> Sequence<T> {
    /// Wraps a vector, without a copy.
    pub fn from_vec(items: Vec<T>) -> Sequence<T>
        ensures { result ≡ items.items }
    {
        Sequence { items }
    }

    /// The number of items.
    pub fn len(&self) -> usize
        ensures { result ≡ length self.now }
    {
        self.items.len()
    }

    /// The items, borrowed.
    pub fn as_slice(&self) -> &[T]
        ensures { result.now ≡ self.now }
    {
        self.items.as_slice()
    }

    /// The vector, without a copy.
    pub fn into_vec(self) -> Vec<T>
        ensures { result.items ≡ self }
    {
        let Sequence { items } = self;
        items
    }
}

/// A list of bytes: a field of variable length, or a whole message.
pub type Bytes = Sequence<u8>;

impl Sequence<u8> {
    /// Copies a slice. Empty bytes take no memory.
    pub fn from_slice(alloc: Global, bytes: &[u8]) -> Result<Bytes, AllocError>
        ensures ok { IfOk result (λ copy. copy ≡ bytes.now) }
        ensures memory { OnErr result (0 < length bytes.now) }
    {
        if bytes.is_empty() {
            return Ok(Sequence::from_vec(Vec::new(alloc)));
        }
        Ok(Sequence::from_vec(Vec::from_slice(alloc, bytes)?))
    }

    /// Copies the bytes. Empty ones take no memory.
    pub fn copy(&self, alloc: Global) -> Result<Bytes, AllocError>
        ensures ok { IfOk result (λ copy. copy ≡ self.now) }
        ensures memory { OnErr result (0 < length self.now) }
    {
        Bytes::from_slice(alloc, self.as_slice())
    }
}
