//! Runs of scripts through `run_live`, and the two channels of most of them.

use lgm_gossip::ChainHash;
use lgm_graph::Known;
use lgm_par::Gate;
use lgm_script::{MemorySink, MemorySource, Sink, Source};
use lgm_server::{LiveReport, RunFault, run_live};
use std::alloc::Global;
use std::marker::Sync;
use std::random::RandomSource;
use std::sync::Wait;
use std::thread::Threads;

/// Two channels from A over B to C, and the terms of their first nodes, in the notation of [`spelled`].
///
/// [`spelled`]: lgm_test_scripts::spelled
pub const TWO_CHANNELS: &str = "m ca(600000x0x0,A,B) all 100000\n\
    m ca(600000x1x0,B,C) all 100000\n\
    m cu(600000x0x0,0,1,delta=10) A -\n\
    m cu(600000x1x0,0,1,delta=20,base=200,millionths=2000) B -\n";

/// Runs a script of the tests' chain by these workers, at least 1 and at most 64.
pub fn run_by<Rt: Threads + Wait + Sync + RandomSource, R: Source, W: Sink, G: Gate>(
    rt: &Rt,
    alloc: Global,
    reader: &mut R,
    writer: &mut W,
    workers: usize,
    gate: &G,
) -> Result<LiveReport, RunFault> {
    let (chain, known) = (ChainHash([0xc1; 32]), Known::all());
    let workers = workers.clamp(1, 64);
    run_live(rt, alloc, reader, writer, &chain, &known, workers, gate)
}

/// How the script ends, which is read in pieces of this many bytes, and the sink with what is written then.
pub fn ended<Rt: Threads + Wait + Sync + RandomSource, G: Gate>(
    rt: &Rt,
    alloc: Global,
    script: &[u8],
    piece: usize,
    workers: usize,
    gate: &G,
) -> (Option<RunFault>, MemorySink) {
    let mut reader = MemorySource::new(script, piece);
    let mut writer = MemorySink::new(alloc);
    let ended = run_by(rt, alloc, &mut reader, &mut writer, workers, gate);
    (ended.err(), writer)
}
