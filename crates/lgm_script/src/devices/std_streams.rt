//! Devices over std's readers and writers, which don't specify their bytes.

ghost use Rattle.std.specs.Prelude.{◌≡◌};

use crate::devices::{Failed, Failures, Sink, Source};
use std::io::{ErrorKind, Read, Write};

/// A source over a reader, such as standard input.
///
/// An interrupted read is retried, up to 2^64 - 1 times. Any other error of the reader is a
/// failure.
#[derive(Drop)]
pub struct FromRead<R> {
    reader: R,
    failures: Failures,
}

impl<R: Read> FromRead<R> {
    /// A source that hasn't failed yet.
    pub fn new(reader: R) -> FromRead<R>
        ensures { (⟦<FromRead<R> as Source>⟧.seen result).failures ≡ 0 }
    {
        FromRead {
            reader,
            failures: Failures::none(),
        }
    }
}

impl<R: Read> Source for FromRead<R> {
    ghost use Rattle.std.specs.Prelude.{None};

    ghost seen = { λ s. record { left = None; failures = s.failures.count } };

    fn read(&mut self, buffer: &mut [u8]) -> Result<usize, Failed> {
        for _ in 0..u64::MAX {
            match self.reader.read(buffer) {
                Ok(n) => return Ok(n),
                Err(error) => {
                    if error.kind() != ErrorKind::Interrupted {
                        break;
                    }
                }
            }
        }
        self.failures = self.failures.and_one();
        Err(Failed)
    }
}

/// A sink over a writer, such as standard output.
///
/// An interrupted write is retried, up to 2^64 - 1 times. Any other error of the writer is a
/// failure, and so is a non-empty write of which no byte is accepted. Nothing is buffered here;
/// flushing the writer's own buffer is up to the writer.
#[derive(Drop)]
pub struct ToWrite<W> {
    writer: W,
    failures: Failures,
}

impl<W: Write> ToWrite<W> {
    /// A sink that hasn't failed yet.
    pub fn new(writer: W) -> ToWrite<W>
        ensures { (⟦<ToWrite<W> as Sink>⟧.seen result).failures ≡ 0 }
    {
        ToWrite {
            writer,
            failures: Failures::none(),
        }
    }
}

impl<W: Write> Sink for ToWrite<W> {
    ghost use Rattle.std.specs.Prelude.{None};

    ghost seen = { λ s. record { taken = None; failures = s.failures.count } };

    fn write(&mut self, bytes: &[u8]) -> Result<usize, Failed> {
        for _ in 0..u64::MAX {
            match self.writer.write(bytes) {
                Ok(n) => {
                    if n == 0 && !bytes.is_empty() {
                        self.failures = self.failures.and_one();
                    }
                    return Ok(n);
                }
                Err(error) => {
                    if error.kind() != ErrorKind::Interrupted {
                        break;
                    }
                }
            }
        }
        self.failures = self.failures.and_one();
        Err(Failed)
    }
}
