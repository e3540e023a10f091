//! What a source and a sink are, and writing all of some bytes to a sink.

ghost use Rattle.std.specs.Prelude.{◌≡◌, ◌+◌, ◌≤◌, ◌<◌, length, IfOk, OnOk, OnErr};
ghost use Rattle.lgm_script.specs.Device.{Input, Written, Reads, IsAtEnd, Writes, Appends, AppendsSome};
ghost use Rattle.lgm_script.specs.Device.{read_failures, write_failures};

use thiserror::Error;

/// A device failed to read or write.
#[derive(Clone, Copy, Debug, PartialEq, Eq, Error)]
#[error("a device failed")]
pub struct Failed;

/// A source of bytes. It counts its failures: a device that may fail stores them as `Failures`, one that can't has 0.
pub trait Source {
    /// The remaining bytes, if the device specifies them, and the number of failures so far.
    ghost seen: { Self → Input };

    /// Moves the next bytes to the start of the buffer, and returns their number.
    ///
    /// It returns 0 for a non-empty buffer only at the end of the source. `Failed` moves nothing, and adds one to the
    /// count of failures; the contents of the buffer are then unspecified.
    fn read(&mut self, buffer: &mut [u8]) -> Result<usize, Failed>
        ensures bound { IfOk result (λ n. n ≤ length buffer.old) }
        ensures bytes { Reads (seen self.old).left (seen self.new).left result buffer.new }
        ensures end { result ≡ Ok 0 → 0 < length buffer.old → IsAtEnd (seen self.old).left }
        ensures failures { (seen self.new).failures
            ≡ (seen self.old).failures + read_failures result };
}

/// A sink of bytes. It counts its failures, as a [`Source`] does.
pub trait Sink {
    /// The bytes accepted so far, if the device specifies them, and the number of failures so far.
    ghost seen: { Self → Written };

    /// Accepts a prefix of the bytes, and returns its length.
    ///
    /// `Failed` accepts nothing, and adds one to the count of failures. So does a non-empty write of which no byte is
    /// accepted.
    fn write(&mut self, bytes: &[u8]) -> Result<usize, Failed>
        ensures bound { IfOk result (λ n. n ≤ length bytes.now) }
        ensures bytes { Writes (seen self.old).taken (seen self.new).taken result bytes.now }
        ensures failures { (seen self.new).failures
            ≡ (seen self.old).failures + write_failures result bytes.now };
}

/// Writes all of the bytes.
///
/// `Failed` comes only if the device failed or accepted none of the remaining bytes. A prefix of the bytes, possibly
/// empty, was accepted then.
pub fn write_all<W: Sink>(sink: &mut W, bytes: &[u8]) -> Result<(), Failed>
    ensures ok { OnOk result (Appends (W.seen sink.old).taken (W.seen sink.new).taken bytes.now) }
    ensures err { OnErr result (AppendsSome (W.seen sink.old).taken (W.seen sink.new).taken bytes.now) }
    ensures cause { OnErr result ((W.seen sink.old).failures < (W.seen sink.new).failures) }
    ensures same { OnOk result ((W.seen sink.new).failures ≡ (W.seen sink.old).failures) }
{
    let mut rest = bytes;
    while !rest.is_empty() {
        let written = sink.write(rest)?;
        if written == 0 {
            return Err(Failed);
        }
        rest = &rest[written..];
    }
    Ok(())
}
