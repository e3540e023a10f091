//! The program by `start`, between devices that fail.

use super::broken_devices::{BrokenSource, FullSink};
use lgm_par::Gate;
use lgm_script::{Failures, MemorySink, MemorySource, Sink, Source};
use lgm_start::{read_words, refuse, start, start_with_gate};
use std::alloc::Global;
use std::env::{Env, FillError};
use std::marker::Sync;
use std::process::Abort;
use std::random::RandomSource;
use std::sync::Wait;
use std::test::Fail;
use std::thread::Threads;

pub const CHAIN: &str = "c1c1c1c1c1c1c1c1c1c1c1c1c1c1c1c1c1c1c1c1c1c1c1c1c1c1c1c1c1c1c1c1";

/// The words of a command line.
#[derive(Drop)]
pub struct Given<'a> {
    pub words: &'a [&'a str],
}

impl Env for Given<'_> {
    fn arg(&self, i: usize, buf: &mut [u8]) -> Result<usize, FillError> {
        let Some(word) = self.words.get(i) else {
            return Err(FillError::NotPresent);
        };
        let word = word.as_bytes();
        let n = word.len();
        if n > buf.len() {
            return Err(FillError::TooLong);
        }
        buf[..n].copy_from_slice(word);
        Ok(n)
    }

    fn var(&self, _name: &str, _buf: &mut [u8]) -> Result<usize, FillError> {
        Err(FillError::NotPresent)
    }

    fn var_at(&self, _i: usize, _buf: &mut [u8]) -> Result<usize, FillError> {
        Err(FillError::NotPresent)
    }
}

/// The status, and what was written to the writer and to `errors`, as `main` does it. The reader returns at most this
/// many bytes at once.
pub fn started_in<Rt: Threads + Wait + Sync + RandomSource, G: Gate>(
    rt: &Rt,
    alloc: Global,
    given: Given<'_>,
    gate: &G,
    script: &[u8],
    most: usize,
) -> (u8, MemorySink, MemorySink) {
    let mut reader = MemorySource::new(script, most);
    let mut writer = MemorySink::new(alloc);
    let mut errors = MemorySink::new(alloc);
    let status = match read_words(&(given, alloc)) {
        Ok(words) => {
            let words = words.as_slice();
            start_with_gate(
                rt,
                alloc,
                words,
                gate,
                &mut reader,
                &mut writer,
                &mut errors,
            )
        }
        Err(bad) => refuse(alloc, &mut errors, &bad),
    };
    (status, writer, errors)
}

/// Starts the program with these words, between these devices.
fn start_with<Rt: Threads + Wait + Sync + RandomSource, R: Source, W: Sink, S: Sink>(
    rt: &Rt,
    alloc: Global,
    words: &[&str],
    reader: &mut R,
    writer: &mut W,
    errors: &mut S,
) -> u8 {
    let given = Given { words };
    match read_words(&(given, alloc)) {
        Ok(words) => start(rt, alloc, words.as_slice(), reader, writer, errors),
        Err(bad) => refuse(alloc, errors, &bad),
    }
}

/// The status, and what was written to the writer and to `errors`, with a script that is read seven bytes at a time.
pub fn started<Rt: Threads + Wait + Sync + RandomSource>(
    rt: &Rt,
    alloc: Global,
    words: &[&str],
    script: &[u8],
) -> (u8, MemorySink, MemorySink) {
    let mut reader = MemorySource::new(script, 7);
    let mut writer = MemorySink::new(alloc);
    let mut errors = MemorySink::new(alloc);
    let status = start_with(rt, alloc, words, &mut reader, &mut writer, &mut errors);
    (status, writer, errors)
}

/// Asserts what `lgm run` writes between these devices, and to `errors`, when one of them fails.
fn assert_failed<Rt: Abort + Threads + Wait + Sync + RandomSource, R: Source, W: Sink>(
    rt: &Rt,
    alloc: Global,
    reader: &mut R,
    writer: &mut W,
    line: &[u8],
) -> Result<(), Fail> {
    let mut errors = MemorySink::new(alloc);
    let words = ["lgm", "run", "--chain", CHAIN];
    let status = start_with(rt, alloc, &words, reader, writer, &mut errors);
    assert_eq!(rt; status, 1);
    assert_eq!(rt; errors.taken(), line);
    Ok(())
}

#[test]
fn a_failed_read_has_its_line(rt: HostRuntime) -> Result<(), Fail> {
    let mut reader = BrokenSource {
        text: MemorySource::new(b"commit\ncomm", 100),
        is_broken: false,
        failures: Failures::none(),
    };
    let mut writer = MemorySink::new(rt.alloc());
    assert_failed(
        &rt,
        rt.alloc(),
        &mut reader,
        &mut writer,
        b"lgm: read failed\n",
    )?;
    assert_eq!(rt; writer.taken(), b"1 commit 0\n".as_slice());
    Ok(())
}

#[test]
fn a_failed_write_has_its_line(rt: HostRuntime) -> Result<(), Fail> {
    let mut reader = MemorySource::new(b"commit\n", 100);
    let mut writer = FullSink::new();
    assert_failed(
        &rt,
        rt.alloc(),
        &mut reader,
        &mut writer,
        b"lgm: write failed\n",
    )
}

/// A failed write to `errors` changes neither the status nor what is written: words that are wrong, a chain that is
/// wrong, and a line that is too long.
#[test]
fn a_failed_write_to_errors_changes_nothing(rt: HostRuntime) -> Result<(), Fail> {
    let alloc = rt.alloc();
    let mut script = Vec::from_slice(alloc, b"commit\n")?;
    script.resize(140_008, b'#')?;
    let table: [(&[&str], u8, &[u8]); 3] = [
        (&["lgm"], 2, b""),
        (&["lgm", "run", "--chain", "zz"], 2, b""),
        (&["lgm", "run", "--chain", CHAIN], 1, b"1 commit 0\n"),
    ];
    for (words, want, text) in table {
        let mut reader = MemorySource::new(script.as_slice(), 1_000);
        let mut writer = MemorySink::new(alloc);
        let mut errors = FullSink::new();
        let status = start_with(&rt, alloc, words, &mut reader, &mut writer, &mut errors);
        assert_eq!(rt; status, want, "at {words:?}");
        assert_eq!(rt; writer.taken(), text, "at {words:?}");
        assert_eq!(rt; errors.writes, 1, "at {words:?}");
    }
    Ok(())
}
