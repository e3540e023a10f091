//! Devices that fail.

ghost use Rattle.std.specs.Prelude.{◌≡◌};

use lgm_script::{Failed, Failures, MemorySource, Sink, Source};

/// A source that fails at its read of a number, from 1, and at no other.
#[derive(Drop)]
pub struct FailingSource<'a> {
    source: MemorySource<'a>,
    reads: usize,
    fails_at: usize,
    failures: Failures,
}

impl<'a> FailingSource<'a> {
    /// A source of this script, ten bytes at each read.
    pub fn new(script: &'a [u8], fails_at: usize) -> FailingSource<'a>
        ensures { (⟦<FailingSource<'a> as Source>⟧.seen result).failures ≡ 0 }
    {
        FailingSource {
            source: MemorySource::new(script, 10),
            reads: 0,
            fails_at,
            failures: Failures::none(),
        }
    }
}

impl Source for FailingSource<'_> {
    ghost use Rattle.std.specs.Prelude.{None};

    ghost seen = { λ s. record { left = None; failures = s.failures.count } };

    fn read(&mut self, buffer: &mut [u8]) -> Result<usize, Failed> {
        self.reads = self.reads.saturating_add(1);
        if self.reads != self.fails_at
            && let Ok(n) = self.source.read(buffer)
        {
            return Ok(n);
        }
        self.failures = self.failures.and_one();
        Err(Failed)
    }
}

/// A sink that accepts one byte at each write, but fails at its write of a number, from 1.
#[derive(Drop)]
pub struct FailingSink {
    pub taken: Vec<u8>,
    writes: usize,
    fails_at: usize,
    failures: Failures,
}

impl FailingSink {
    /// A sink that appends what it accepts to these bytes.
    pub fn new(taken: Vec<u8>, fails_at: usize) -> FailingSink {
        FailingSink {
            taken,
            writes: 0,
            fails_at,
            failures: Failures::none(),
        }
    }
}

impl Sink for FailingSink {
    ghost use Rattle.std.specs.Prelude.{None};

    ghost seen = { λ s. record { taken = None; failures = s.failures.count } };

    fn write(&mut self, bytes: &[u8]) -> Result<usize, Failed> {
        self.writes = self.writes.saturating_add(1);
        let [byte, ..] = bytes else {
            return Ok(0);
        };
        if self.writes != self.fails_at && self.taken.push(*byte).is_ok() {
            return Ok(1);
        }
        self.failures = self.failures.and_one();
        Err(Failed)
    }
}
