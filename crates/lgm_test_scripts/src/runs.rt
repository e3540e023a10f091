//! Runs of scripts.

use lgm_graph::Known;
use lgm_par::{Gate, MAX_WORKERS};
use lgm_script::{MemorySink, MemorySource, Sink, Source};
use lgm_server::{Counts, RunFault, run};
use lgm_test_gossip::CHAIN;
use std::alloc::Global;
use std::random::RandomSource;
use std::thread::Threads;

/// Runs a script of the tests' chain by these workers, at least 1 and at most [`MAX_WORKERS`].
pub fn run_by<Rt: Threads + Sync + RandomSource, G: Gate, R: Source, W: Sink>(
    rt: &Rt,
    alloc: Global,
    known: &Known,
    reader: &mut R,
    writer: &mut W,
    workers: usize,
    gate: &G,
) -> Result<Counts, RunFault> {
    run(
        rt,
        alloc,
        reader,
        writer,
        &CHAIN,
        known,
        workers.clamp(1, MAX_WORKERS),
        gate,
    )
}

/// How the script ends, which is read in pieces of this many bytes, and the sink with what is written then.
pub fn ended<Rt: Threads + Sync + RandomSource, G: Gate>(
    rt: &Rt,
    alloc: Global,
    known: &Known,
    script: &[u8],
    piece: usize,
    workers: usize,
    gate: &G,
) -> (Result<Counts, RunFault>, MemorySink) {
    let mut reader = MemorySource::new(script, piece);
    let mut writer = MemorySink::new(alloc);
    let ended = run_by(rt, alloc, known, &mut reader, &mut writer, workers, gate);
    (ended, writer)
}
