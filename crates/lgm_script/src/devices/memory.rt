//! Devices in memory, for tests and for programs that have their script in memory.

ghost use Rattle.std.specs.Prelude.{◌≡◌, ◌<◌, Some, []};

use crate::devices::{Failed, Failures, Sink, Source};
use std::alloc::Global;

/// A source of bytes in memory. It never fails.
#[derive(Drop)]
pub struct MemorySource<'a> {
    left: &'a [u8],
    most: usize,
    ghost some: { 0 < most },
}

impl<'a> MemorySource<'a> {
    /// A source of these bytes, which returns at most `most` of them per read, and at least one.
    pub fn new(bytes: &'a [u8], most: usize) -> MemorySource<'a>
        ensures bytes { (⟦<MemorySource<'a> as Source>⟧.seen result).left ≡ Some bytes.now }
        ensures failures { (⟦<MemorySource<'a> as Source>⟧.seen result).failures ≡ 0 }
    {
        MemorySource {
            left: bytes,
            most: most.max(1),
        }
    }
}

impl Source for MemorySource<'_> {
    ghost use Rattle.std.specs.Prelude.{Some};

    ghost seen = { λ s. record { left = Some s.left.now; failures = 0 } };

    fn read(&mut self, buffer: &mut [u8]) -> Result<usize, Failed> {
        let n = self.left.len().min(buffer.len()).min(self.most);
        let (front, rest) = self.left.split_at(n);
        buffer[..n].copy_from_slice(front);
        self.left = rest;
        Ok(n)
    }
}

/// A sink that stores what it accepts in memory. It fails only if memory runs out.
#[derive(Drop)]
pub struct MemorySink {
    taken: Vec<u8>,
    failures: Failures,
}

impl MemorySink {
    /// An empty sink. Nothing is allocated before its first write.
    pub fn new(alloc: Global) -> MemorySink
        ensures bytes { (⟦<MemorySink as Sink>⟧.seen result).taken ≡ Some [] }
        ensures failures { (⟦<MemorySink as Sink>⟧.seen result).failures ≡ 0 }
    {
        MemorySink {
            taken: Vec::new(alloc),
            failures: Failures::none(),
        }
    }

    /// The bytes that were accepted, in order.
    pub fn taken(&self) -> &[u8]
        ensures { (⟦<MemorySink as Sink>⟧.seen self.now).taken ≡ Some result.now }
    {
        self.taken.as_slice()
    }
}

impl Sink for MemorySink {
    ghost use Rattle.std.specs.Prelude.{Some};

    ghost seen = { λ s. record { taken = Some s.taken.items; failures = s.failures.count } };

    fn write(&mut self, bytes: &[u8]) -> Result<usize, Failed> {
        if self.taken.extend_from_slice(bytes).is_err() {
            self.failures = self.failures.and_one();
            return Err(Failed);
        }
        Ok(bytes.len())
    }
}
