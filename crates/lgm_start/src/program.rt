//! The whole program, over any words and streams.

ghost use Rattle.std.specs.Prelude.{◌≡◌, ◌≢◌};
ghost use Rattle.lgm_start.specs.Ended.{EndsWith, line_of, status_of};

use crate::answer::{Ended, answer};
use crate::options::{BadWords, parse};
use clap::Error;
use clap::error::ErrorKind;
use lgm_answers::RunFault;
use lgm_par::{Gate, Open};
use lgm_script::{Sink, Source, write_all};
use std::alloc::Global;
use std::marker::Sync;
use std::mem::forget;
use std::random::RandomSource;
use std::sync::Wait;
use std::thread::Threads;

/// Exit statuses.
const DONE: u8 = 0;

const FAILED: u8 = 1;

const BAD_WORDS: u8 = 2;

/// Writes a text about a fault. A failure to write is ignored.
fn write_line<S: Sink>(errors: &mut S, text: &str) {
    let _ = write_all(errors, text.as_bytes());
}

/// The line on standard error for a fault of `lgm run` or `lgm live`, with its line feed.
pub fn fault_line(fault: RunFault) -> &'static str
    ensures { result.now ≡ line_of fault }
{
    match fault {
        RunFault::Read => "lgm: read failed\n",
        RunFault::Write => "lgm: write failed\n",
        RunFault::NoMemory => "lgm: out of memory\n",
        RunFault::TooManyLines => "lgm: too many lines\n",
        RunFault::LineTooLong => "lgm: line too long\n",
        RunFault::Closed => "lgm: board closed\n",
        RunFault::Versions => "lgm: versions disagree\n",
    }
}

fn fail<S: Sink>(errors: &mut S, fault: RunFault) -> u8
    ensures { result ≡ 1 }
{
    write_line(errors, fault_line(fault));
    FAILED
}

/// Writes the fault of a script that wasn't answered, and returns the exit status.
fn finish<S: Sink>(errors: &mut S, ended: &Ended) -> u8
    ensures { result ≡ status_of ended.now }
{
    match ended {
        Ended::Ran(Ok(_)) | Ended::RanLive(Ok(_)) => DONE,
        Ended::Ran(Err(fault)) | Ended::RanLive(Err(fault)) => fail(errors, *fault),
    }
}

/// Writes what `clap` says about the arguments.
fn explain<S: Sink>(alloc: Global, errors: &mut S, error: &Error) -> u8
    ensures { result ≢ 0 }
{
    if matches!(error.kind(), ErrorKind::OutOfMemory) {
        return fail(errors, RunFault::NoMemory);
    }
    match format!(in alloc; "{error}") {
        Ok(text) => {
            write_line(errors, text.as_str());
            BAD_WORDS
        }
        Err(_) => fail(errors, RunFault::NoMemory),
    }
}

/// Writes why words give no options, and returns the exit status: 1 if memory ran out, else 2.
pub fn refuse<S: Sink>(alloc: Global, errors: &mut S, bad: &BadWords) -> u8
    ensures { result ≢ 0 }
{
    let line = match bad {
        BadWords::NotText => "lgm: argument isn't UTF-8\n",
        BadWords::Words(error) => return explain(alloc, errors, error),
        BadWords::Chain => "lgm: bad chain\n",
        BadWords::Known => "lgm: bad known\n",
        BadWords::NoMemory => return fail(errors, RunFault::NoMemory),
    };
    write_line(errors, line);
    BAD_WORDS
}

/// Runs the program on its words, its own name first, and returns its exit status.
///
/// Status 0: the script was answered. Status 2: the words are wrong, or request help or the version, and `clap`'s text
/// is on `errors`; or the chain isn't 64 hexadecimal digits, or the known feature bits aren't 2 to 512, an even number.
/// Status 1: the run failed, and [`fault_line`] is on `errors`. A failure to write to `errors` changes nothing.
///
/// It is called once, before the process ends: maps and reports are left to the system, since freeing them row by row
/// takes a sixth of the time.
pub fn start<Rt: Threads + Wait + Sync + RandomSource, R: Source, W: Sink, S: Sink>(
    rt: &Rt,
    alloc: Global,
    words: &[String],
    reader: &mut R,
    writer: &mut W,
    errors: &mut S,
) -> u8
    ensures { EndsWith (R.seen reader.old) (R.seen reader.new) (W.seen writer.old) (W.seen writer.new) result }
{
    start_with_gate(rt, alloc, words, &Open, reader, writer, errors)
}

/// Like [`start`], but all work passes the gate.
pub fn start_with_gate<
    Rt: Threads + Wait + Sync + RandomSource,
    G: Gate,
    R: Source,
    W: Sink,
    S: Sink,
>(
    rt: &Rt,
    alloc: Global,
    words: &[String],
    gate: &G,
    reader: &mut R,
    writer: &mut W,
    errors: &mut S,
) -> u8
    ensures { EndsWith (R.seen reader.old) (R.seen reader.new) (W.seen writer.old) (W.seen writer.new) result }
{
    let options = match parse(alloc, words) {
        Ok(options) => options,
        Err(bad) => return refuse(alloc, errors, &bad),
    };
    let mut final_engine = None;
    let ended = answer(rt, alloc, &options, gate, reader, writer, &mut final_engine);
    forget(final_engine);
    let status = finish(errors, &ended);
    forget(ended);
    status
}
