//! Answering a script according to the options.

ghost use Rattle.std.specs.Prelude.{◌≤◌};
ghost use Rattle.lgm_start.specs.Ended.{AnswersAs};

use crate::options::{Mode, Options};
use lgm_answers::RunFault;
use lgm_live::{LiveReport, run_live};
use lgm_par::{Gate, Pool};
use lgm_run::{Context, Counts, Engine, run_keeping};
use lgm_script::{Sink, Source};
use std::alloc::Global;
use std::marker::Sync;
use std::random::RandomSource;
use std::sync::Wait;
use std::thread::Threads;

/// How a script ended.
#[derive(Drop)]
pub enum Ended {
    /// By `lgm run`.
    Ran(Result<Counts, RunFault>),
    /// By `lgm live`.
    RanLive(Result<LiveReport, RunFault>),
}

/// Answers a script according to the options: by their command, on their chain and known bits, and with their number of
/// workers, all of whose chunks pass the gate. `lgm run` leaves its maps in `final_engine`.
pub fn answer<Rt: Threads + Wait + Sync + RandomSource, G: Gate, R: Source, W: Sink>(
    rt: &Rt,
    alloc: Global,
    options: &Options,
    gate: &G,
    reader: &mut R,
    writer: &mut W,
    final_engine: &mut Option<Box<Engine>>,
) -> Ended
    requires { (1 ≤ options.now.workers) × (options.now.workers ≤ 64) }
    ensures { AnswersAs options.now.mode options.now (R.seen reader.old) (R.seen reader.new)
        (W.seen writer.old) (W.seen writer.new) result }
{
    let chain = &options.chain;
    let known = &options.known;
    let workers = options.workers;
    match options.mode {
        Mode::Run => {
            let pool = Pool {
                rt,
                alloc,
                workers,
                gate,
            };
            let context = Context {
                pool,
                chain: *chain,
            };
            Ended::Ran(run_keeping(&context, known, reader, writer, final_engine))
        }
        Mode::Live => Ended::RanLive(run_live(
            rt, alloc, reader, writer, chain, known, workers, gate,
        )),
    }
}
