//! Running a script whose payments are answered while its items are admitted.

ghost use Rattle.std.specs.Prelude.{◌≡◌, ◌≤◌, []};
ghost use Rattle.lgm_live.specs.RunsLive.{RunsLive};

use crate::freshness::are_fresh;
use crate::live_batches::live;
use crate::ordering_gate::OrderingGate;
use crate::read_script::read_script;
use crate::report::LiveReport;
use crate::write_answers::write_answers;
use lgm_answers::RunFault;
use lgm_gossip::ChainHash;
use lgm_graph::Known;
use lgm_par::{Gate, Pool};
use lgm_script::{BLOCK, Output, Sink, Source};
use std::alloc::Global;
use std::marker::Sync;
use std::random::RandomSource;
use std::sync::Wait;
use std::thread::Threads;

/// Runs a whole script to an output with an empty buffer.
fn run_all<Rt: Threads + Wait + Sync + RandomSource, G: Gate, R: Source, W: Sink>(
    pool: &Pool<'_, Rt, G>,
    source: &mut R,
    output: &mut Output<'_, W>,
    chain: &ChainHash,
    known: &Known,
) -> Result<LiveReport, RunFault>
    requires { output.old.buffered.now.items ≡ [] }
    ensures writer { output.new.writer.ghost_name ≡ output.old.writer.ghost_name }
    ensures runs { RunsLive chain.now known.now pool.now.workers (R.seen source.old) (R.seen source.new)
        (W.seen output.old.writer.now) (W.seen output.new.writer.now) result }
{
    let parsed = read_script(pool.alloc, pool.workers, source, output)?;
    let paced = OrderingGate::new(pool.rt, pool.alloc, pool.gate, pool.workers, parsed.above())?;
    let report = live(
        pool.rt,
        pool.alloc,
        chain,
        known,
        parsed.batches(),
        parsed.lists(),
        &paced,
    )?;
    let line_answers = parsed.line_answers();
    if !are_fresh(pool.workers, line_answers, &report) {
        return Err(RunFault::Versions);
    }
    write_answers(pool.alloc, pool.workers, line_answers, &report, output)?;
    Ok(report)
}

/// Runs a whole script (see `lgm live` in `docs/script.md`): reads it, has [`live`] admit its items and answer its
/// payments in parallel, and then writes the text of its lines, in order. Batches of items end at `commit` lines and at
/// the end. Payments are dealt to 1 to 64 workers round-robin, from worker 0 on. A payment waits until the
/// batches whose `commit` is before it are published, so it is answered on a map with these or with more, which is checked.
///
/// Items and commits are answered as by `run` if no peer has a filter. The answer to a payment has the
/// version of its map, `same`, and the answer itself; `same` says that the map of that many operations gives this
/// answer. Queries and filters are `not-live`. The gate is that of [`live`].
///
/// The whole script and report are kept in memory. At each fault other than `Write` and `NoMemory` nothing was written;
/// at these nothing, or a prefix of the text. `Read` and `Write` come only if the device failed in this call.
pub fn run_live<Rt: Threads + Wait + Sync + RandomSource, G: Gate, R: Source, W: Sink>(
    rt: &Rt,
    alloc: Global,
    reader: &mut R,
    writer: &mut W,
    chain: &ChainHash,
    known: &Known,
    workers: usize,
    gate: &G,
) -> Result<LiveReport, RunFault>
    requires workers { (1 ≤ workers) × (workers ≤ 64) }
    ensures runs { RunsLive chain.now known.now workers (R.seen reader.old) (R.seen reader.new)
        (W.seen writer.old) (W.seen writer.new) result }
{
    let mut block = Vec::with_capacity(alloc, BLOCK)?;
    let mut output = Output::new(&mut block, writer);
    let pool = Pool {
        rt,
        alloc,
        workers,
        gate,
    };
    run_all(&pool, reader, &mut output, chain, known)
}
