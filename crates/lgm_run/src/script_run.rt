//! Running a whole script.

ghost use Rattle.std.specs.Prelude.{◌≡◌, ◌+◌, ◌*◌, ◌<◌, ◌≤◌, [], length, IfOk, IfErr};
ghost use Rattle.lgm_script.specs.Output.{told_by, Tells, TellsPart};
ghost use Rattle.lgm_run.specs.inner.Steps.{opening};
ghost use Rattle.lgm_run.specs.inner.Progress.{HaveAnswers, HaveBegun, HasAnswered};
ghost use Rattle.lgm_run.specs.Runs.{Runs};
ghost use Rattle.lgm_run.specs.inner.Ending.{IsEnded};

use crate::answer_group::answer_group;
use crate::context::Context;
use crate::engine::Engine;
use lgm_answers::{MAX_LINES, RunFault};
use lgm_gossip::ChainHash;
use lgm_graph::Known;
use lgm_par::{Gate, Pool};
use lgm_script::{
    BLOCK, LineReader, MAX_LINE, Output, ROOM, SendFault, Sink, Source, more_begins, next_group,
    next_line,
};
use lgm_store::Seed;
use std::alloc::Global;
use std::random::RandomSource;
use std::thread::Threads;

/// What a whole script contained.
#[derive(Clone, Copy, Debug, PartialEq, Eq)]
pub struct Counts {
    /// The number of lines, including empty ones and comments.
    pub lines: u64,
    /// The number of accepted items.
    pub accepted: u64,
}

/// The most bytes that are read ahead for several workers: 1,024 announcements of channels, so that a group is worth
/// sharing.
const ROOM_TO_SHARE: usize = 1_048_576;

/// How many bytes are read ahead for this many workers.
fn room_for(workers: usize) -> usize
    ensures { 2 * MAX_LINE ≤ result }
{
    if workers > 1 { ROOM_TO_SHARE } else { ROOM }
}

/// Answers the next lines, the first of which has this number and `first` bytes. Returns the number of lines, at most
/// `most`, and of their bytes.
fn answer_next<Rt: Threads + Sync, G: Gate, W: Sink>(
    context: &Context<'_, Rt, G>,
    number: u64,
    first: usize,
    most: usize,
    lines: &LineReader,
    engine: &mut Engine,
    output: &mut Output<'_, W>,
) -> Result<(u64, usize), SendFault>
    requires line { (first ≤ length lines.now) × (first ≤ MAX_LINE) }
    requires most { (0 < most) × (engine.old.accepted + most ≤ MAX_LINES) }
    requires number { number ≤ MAX_LINES }
    ensures answered { IfOk result
        (λ done. HaveAnswers context.now.chain number engine.old engine.new lines.now first
        (Tells (told_by W.seen output.old) (told_by W.seen output.new)) done.0 done.1) }
    ensures few { IfOk result (λ done. done.0 ≤ most) }
    ensures fault { IfErr result (λ fault. HaveBegun context.now.chain number most engine.old lines.now first
        (λ text. TellsPart (told_by W.seen output.old) (told_by W.seen output.new) text fault)) }
{
    let group = next_group(context.pool.alloc, lines.buffered(), first, most)?;
    answer_group(context, number, &group, engine, output)?;
    Ok((group.lines.len() as u64, group.len))
}

/// Answers the lines of a script of which nothing was read or answered yet. Some of the answers may still be buffered.
fn answer_lines<Rt: Threads + Sync, G: Gate, R: Source, W: Sink>(
    context: &Context<'_, Rt, G>,
    lines: &mut LineReader,
    source: &mut R,
    engine: &mut Engine,
    output: &mut Output<'_, W>,
) -> Result<Counts, RunFault>
    requires lines { lines.old ≡ [] }
    requires engine { engine.old ≡ opening engine.old.known }
    ensures { HasAnswered context.now.chain engine.old.known (R.seen source.old) (R.seen source.new)
        (told_by W.seen output.old) (told_by W.seen output.new) result }
{
    let mut number = 0;
    while number < MAX_LINES {
        let Some(count) = next_line(lines, source, output)? else {
            return Ok(Counts {
                lines: number,
                accepted: engine.accepted(),
            });
        };
        let most = (MAX_LINES - number) as usize;
        let (some, len) = answer_next(context, number + 1, count, most, lines, engine, output)?;
        lines.drop_front(len);
        number += some;
    }
    if more_begins(lines, source, output)? {
        return Err(RunFault::TooManyLines);
    }
    Ok(Counts {
        lines: MAX_LINES,
        accepted: engine.accepted(),
    })
}

/// Answers a whole script to an output with an empty buffer, and writes all answers. The engine stays with the caller.
fn answer_script<Rt: Threads + Sync + RandomSource, G: Gate, R: Source, W: Sink>(
    context: &Context<'_, Rt, G>,
    known: &Known,
    source: &mut R,
    output: &mut Output<'_, W>,
    final_engine: &mut Option<Box<Engine>>,
) -> Result<Counts, RunFault>
    requires { output.old.buffered.now.items ≡ [] }
    ensures writer { output.new.writer.ghost_name ≡ output.old.writer.ghost_name }
    ensures runs { Runs context.now.chain known.now (R.seen source.old) (R.seen source.new)
        (W.seen output.old.writer.now) (W.seen output.new.writer.now) result }
{
    let alloc = context.pool.alloc;
    let mut lines = LineReader::new(alloc, room_for(context.pool.workers))?;
    let made = Engine::boxed(alloc, Seed::random(context.pool.rt), known)?;
    let engine = final_engine.insert(made);
    let answered = answer_lines(context, &mut lines, source, engine, output);
    flush_answers(answered, output)
}

/// Writes the buffered answers, unless the sink has failed. Returns how the run ended.
fn flush_answers<W: Sink>(
    answered: Result<Counts, RunFault>,
    output: &mut Output<'_, W>,
) -> Result<Counts, RunFault>
    ensures { IsEnded (told_by W.seen output.old) (told_by W.seen output.new) answered result }
{
    if let Err(RunFault::Write) = answered {
        return answered;
    }
    match output.flush() {
        Ok(()) => answered,
        Err(_) => Err(RunFault::Write),
    }
}

/// Answers a whole script: its lines, in order, each depending on the lines before it (see the grammar in
/// `docs/script.md`). Payments use no node that requires unknown features.
///
/// The work is shared by 1 to 64 workers. Consecutive lines that are completely read ahead are processed
/// together, at most 1,024 of items or of questions: they are parsed, checked and answered in chunks, each of which
/// passes the gate, and written in order. Up to 64 items may each be a chunk; more are two chunks, and one more for
/// each 128 KiB of their text. Neither the number of workers nor the gate affects what is written, nor do the random
/// bytes from the system, with which points are hashed.
///
/// Answers are written before the source is read again, and in blocks otherwise. At `TooManyLines` and `LineTooLong`
/// the lines before were answered. At any other fault a prefix of the text of lines that were read, each to its line
/// feed or to the end, was written; answers found before memory ran out are written. `Read` and `Write` come only if
/// the device failed in this call; at any fault the reader and the writer have advanced.
pub fn run<Rt: Threads + Sync + RandomSource, G: Gate, R: Source, W: Sink>(
    rt: &Rt,
    alloc: Global,
    reader: &mut R,
    writer: &mut W,
    chain: &ChainHash,
    known: &Known,
    workers: usize,
    gate: &G,
) -> Result<Counts, RunFault>
    requires workers { (1 ≤ workers) × (workers ≤ 64) }
    ensures runs { Runs chain.now known.now (R.seen reader.old) (R.seen reader.new) (W.seen writer.old)
        (W.seen writer.new) result }
{
    let context = Context {
        pool: Pool {
            rt,
            alloc,
            workers,
            gate,
        },
        chain: *chain,
    };
    let mut final_engine = None;
    run_keeping(&context, known, reader, writer, &mut final_engine)
}

/// Like [`run`], with the workers and the chain of the context, but the engine that the run ends with, which has the maps,
/// stays with the caller. Dropping the maps row by row takes a sixth of the time of a run: a program that ends with its
/// script forgets them instead, and the system reclaims the memory at once.
pub fn run_keeping<Rt: Threads + Sync + RandomSource, G: Gate, R: Source, W: Sink>(
    context: &Context<'_, Rt, G>,
    known: &Known,
    reader: &mut R,
    writer: &mut W,
    final_engine: &mut Option<Box<Engine>>,
) -> Result<Counts, RunFault>
    ensures runs { Runs context.now.chain known.now (R.seen reader.old) (R.seen reader.new) (W.seen writer.old)
        (W.seen writer.new) result }
{
    let mut block = Vec::with_capacity(context.pool.alloc, BLOCK)?;
    let mut output = Output::new(&mut block, writer);
    answer_script(context, known, reader, &mut output, final_engine)
}
