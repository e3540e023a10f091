//! Devices that fail.

use lgm_script::{Failed, Failures, MemorySource, Sink, Source};

/// A source that gives a text once, and then fails.
#[derive(Drop)]
pub struct BrokenSource<'a> {
    pub text: MemorySource<'a>,
    pub is_broken: bool,
    pub failures: Failures,
}

impl Source for BrokenSource<'_> {
    ghost use Rattle.std.specs.Prelude.{None};

    ghost seen = { λ s. record { left = None; failures = s.failures.count } };

    fn read(&mut self, buffer: &mut [u8]) -> Result<usize, Failed> {
        if !self.is_broken {
            self.is_broken = true;
            if let Ok(n) = self.text.read(buffer) {
                return Ok(n);
            }
        }
        self.failures = self.failures.and_one();
        Err(Failed)
    }
}

/// A sink that accepts nothing, and the number of its writes.
#[derive(Drop)]
pub struct FullSink {
    pub writes: u64,
    failures: Failures,
}

impl FullSink {
    pub fn new() -> FullSink {
        FullSink {
            writes: 0,
            failures: Failures::none(),
        }
    }
}

impl Sink for FullSink {
    ghost use Rattle.std.specs.Prelude.{None};

    ghost seen = { λ s. record { taken = None; failures = s.failures.count } };

    fn write(&mut self, bytes: &[u8]) -> Result<usize, Failed> {
        if !bytes.is_empty() {
            self.writes = self.writes.saturating_add(1);
            self.failures = self.failures.and_one();
        }
        Ok(0)
    }
}
