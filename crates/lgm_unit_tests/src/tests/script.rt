//! `lgm_script`: lines and blocks over any device.

ghost use Rattle.std.specs.Prelude.{◌≤◌, IfOk};

use lgm_gossip::Scid;
use lgm_script::{
    BLOCK, Failed, Failures, FromRead, Lead, Line, LineFault, LineReader, MAX_LINE, MemorySink,
    MemorySource, Output, Sink, Source, ToWrite, next_group, next_line,
};
use std::alloc::Global;
use std::io::{self, ErrorKind, Read, Write};
use std::test::Fail;

/// A sink that never fails, and stores nothing.
#[derive(Drop)]
struct Forgetful {}

impl Sink for Forgetful {
    ghost use Rattle.std.specs.Prelude.{None};

    ghost seen = { λ _. record { taken = None; failures = 0 } };

    fn write(&mut self, bytes: &[u8]) -> Result<usize, Failed> {
        Ok(bytes.len())
    }
}

/// A source that fails after this many reads.
#[derive(Drop)]
struct FailingSource<'a> {
    source: MemorySource<'a>,
    reads_left: usize,
    failures: Failures,
}

impl Source for FailingSource<'_> {
    ghost use Rattle.std.specs.Prelude.{None};

    ghost seen = { λ s. record { left = None; failures = s.failures.count } };

    fn read(&mut self, buffer: &mut [u8]) -> Result<usize, Failed> {
        if self.reads_left > 0 {
            self.reads_left -= 1;
            if let Ok(n) = self.source.read(buffer) {
                return Ok(n);
            }
        }
        self.failures = self.failures.and_one();
        Err(Failed)
    }
}

/// A stream whose first call is interrupted, whose second moves two bytes, and which is then broken.
#[derive(Drop)]
struct ShakyStream {
    calls: u8,
}

impl ShakyStream {
    fn moved(&mut self, room: usize) -> io::Result<usize>
        ensures { IfOk result (λ n. n ≤ room) }
    {
        self.calls = self.calls.saturating_add(1);
        match self.calls {
            1 => Err(ErrorKind::Interrupted.into()),
            2 => Ok(room.min(2)),
            _ => Err(ErrorKind::BrokenPipe.into()),
        }
    }
}

impl Read for ShakyStream {
    fn read(&mut self, buffer: &mut [u8]) -> io::Result<usize> {
        let room = buffer.len();
        self.moved(room)
    }
}

impl Write for ShakyStream {
    fn write(&mut self, bytes: &[u8]) -> io::Result<usize> {
        self.moved(bytes.len())
    }

    fn flush(&mut self) -> io::Result<()> {
        Ok(())
    }
}

/// The lines of a text, whose source gives it in pieces: each with a `|` behind it.
fn joined(alloc: Global, text: &[u8], most: usize) -> Result<Vec<u8>, Fail> {
    let mut source = MemorySource::new(text, most);
    let mut sink = Forgetful {};
    let mut buffered = Vec::new(alloc);
    let mut output = Output::new(&mut buffered, &mut sink);
    let mut reader = LineReader::new(alloc, 2 * MAX_LINE)?;
    let mut joined = Vec::new(alloc);
    for _ in 0..10 {
        let Ok(Some(count)) = next_line(&mut reader, &mut source, &mut output) else {
            return Ok(joined);
        };
        joined.extend_from_slice(&reader.buffered()[..count])?;
        joined.extend_from_slice(b"|")?;
        let len = next_group(alloc, reader.buffered(), count, 1)?.len;
        reader.drop_front(len);
    }
    Ok(joined)
}

#[test]
fn lines_in_pieces(rt: HostRuntime) -> Result<(), Fail> {
    let text = b"m 01 all -\n\nroute\r\n\n# the end".as_slice();
    let lines = b"m 01 all -||route\r||# the end|".as_slice();
    for most in [1, 7, 4_096, 100_000] {
        let joined = joined(rt.alloc(), text, most)?;
        assert_eq!(rt; joined.as_slice(), lines, "in pieces of {most}");
    }
    Ok(())
}

/// The length of the first line of a text, whose source gives it in pieces.
fn first_length(alloc: Global, text: &[u8]) -> Result<Result<Option<usize>, LineFault>, Fail> {
    let mut source = MemorySource::new(text, 4_096);
    let mut sink = Forgetful {};
    let mut buffered = Vec::new(alloc);
    let mut output = Output::new(&mut buffered, &mut sink);
    let mut reader = LineReader::new(alloc, 2 * MAX_LINE)?;
    Ok(next_line(&mut reader, &mut source, &mut output))
}

#[test]
fn longest_lines(rt: HostRuntime) -> Result<(), Fail> {
    for (length, end, outcome) in [
        (MAX_LINE, "\n", Ok(Some(MAX_LINE))),
        (MAX_LINE, "", Ok(Some(MAX_LINE))),
        (MAX_LINE + 1, "\n", Err(LineFault::TooLong)),
        (MAX_LINE + 1, "", Err(LineFault::TooLong)),
        (0, "", Ok(None)),
    ] {
        let mut text = vec![in rt.alloc(); b'x'; length]?;
        text.extend_from_slice(end.as_bytes())?;
        let found = first_length(rt.alloc(), text.as_slice())?;
        assert_eq!(rt; found, outcome, "{length} bytes");
    }
    Ok(())
}

/// The number of lines of a source that fails after this many reads, and why there are no more.
fn lines_before(alloc: Global, reads: usize) -> Result<(u8, Option<LineFault>), Fail> {
    let mut source = FailingSource {
        source: MemorySource::new(b"one\ntwo\nthree", 4),
        reads_left: reads,
        failures: Failures::none(),
    };
    let mut sink = Forgetful {};
    let mut buffered = Vec::new(alloc);
    let mut output = Output::new(&mut buffered, &mut sink);
    let mut reader = LineReader::new(alloc, 2 * MAX_LINE)?;
    for lines in 0..4u8 {
        match next_line(&mut reader, &mut source, &mut output) {
            Ok(Some(count)) => {
                let len = next_group(alloc, reader.buffered(), count, 1)?.len;
                reader.drop_front(len);
            }
            Ok(None) => return Ok((lines, None)),
            Err(fault) => return Ok((lines, Some(fault))),
        }
    }
    Ok((4, None))
}

#[test]
fn failing_reads(rt: HostRuntime) -> Result<(), Fail> {
    // The reads give `one\n`, `two\n`, `thre`, `e`, and no byte.
    for (reads, lines) in [(0, 0), (1, 1), (2, 2), (3, 2), (4, 2), (5, 3)] {
        let before = lines_before(rt.alloc(), reads)?;
        assert_eq!(rt;
            before,
            (lines, Some(LineFault::Read)),
            "after {reads} reads"
        );
    }
    Ok(())
}

#[test]
fn text_in_blocks(rt: HostRuntime) -> Result<(), Fail> {
    let alloc = rt.alloc();
    let mut sink = MemorySink::new(alloc);
    let mut buffered = Vec::new(alloc);
    let mut output = Output::new(&mut buffered, &mut sink);
    output.send(10_000_000, &Line::Word("accepted"))?;
    output.send(7, &Line::Commit(1))?;
    output.send_message(&Lead::new(alloc, 8, Some(999))?, b"\x01\xff")?;
    let route = Line::Route {
        sent: 1_001,
        expiry: 700_040,
        hops: 20,
    };
    output.send(9, &route)?;
    output.send(9, &Line::Hop(Scid::new(600_000, 1, 0), b"\x02\xfe"))?;
    output.send(9, &Line::Hop(Scid::from_u64(u64::MAX), b""))?;
    output.flush()?;
    let text = b"10000000 accepted\n7 commit 1\n8 to 999 01ff\n9 route 1001 700040 20\n\
        9 hop 600000x1x0 02fe\n9 hop 16777215x16777215x65535 \n"
        .as_slice();
    assert_eq!(rt; sink.taken(), text);
    Ok(())
}

/// How many bytes of a message of this length are written before a flush.
fn written_of(alloc: Global, length: usize) -> Result<usize, Fail> {
    let message = vec![in alloc; 0; length]?;
    let mut sink = MemorySink::new(alloc);
    let mut buffered = Vec::new(alloc);
    let mut output = Output::new(&mut buffered, &mut sink);
    output.send_message(&Lead::new(alloc, 1, None)?, message.as_slice())?;
    Ok(sink.taken().len())
}

#[test]
fn full_blocks(rt: HostRuntime) -> Result<(), Fail> {
    // Besides two digits per byte there are three bytes: the number, a space and a line feed.
    for (length, written) in [(BLOCK / 2 - 2, 0), (BLOCK / 2 - 1, BLOCK + 1)] {
        assert_eq!(rt;
            written_of(rt.alloc(), length)?,
            written,
            "of {length} bytes"
        );
    }
    Ok(())
}

#[test]
fn interrupted_streams(rt: HostRuntime) -> Result<(), Fail> {
    let mut source = FromRead::new(ShakyStream { calls: 0 });
    let mut buffer = [0; 8];
    let read = source.read(&mut buffer)?;
    assert_eq!(rt; read, 2);
    let read = source.read(&mut buffer);
    assert_eq!(rt; read, Err(Failed));

    let mut sink = ToWrite::new(ShakyStream { calls: 0 });
    let written = sink.write(b"text")?;
    assert_eq!(rt; written, 2);
    let written = sink.write(b"xt");
    assert_eq!(rt; written, Err(Failed));
    Ok(())
}
