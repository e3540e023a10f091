//! A map that is queried while it grows.

ghost use Rattle.std.specs.Prelude.{◌≡◌, ◌≤◌, ◌<◌, [], length, All, IfSome, IfOk, MatchResult};
ghost use Rattle.std.specs.List.{AllZip};
ghost use Rattle.std.specs.Thread.{IsSync};
ghost use Rattle.lgm_live.specs.Batches.{items_of};
ghost use Rattle.lgm_live.specs.Running.{IsReport};
ghost use Rattle.lgm_live.specs.inner.WorkerResult.{HaveWorked, IsTied, IsOfWriter};
ghost use Rattle.lgm_live.specs.inner.WriterResult.{ArePublished};

use crate::fault::LiveFault;
use crate::lists::{Batches, RequestLists};
use crate::report::LiveReport;
use crate::versions::check_all_versions;
use crate::worker::{WorkerResult, work_all};
use crate::writer::{WriterResult, publish_batches};
use lgm_board::{Eye, MAX_OPERATIONS, Pen, PublishFault, board};
use lgm_gossip::{ChainHash, Sequence};
use lgm_graph::Known;
use lgm_par::{Gate, MAX_WORKERS, Pool};
use lgm_route::Request;
use lgm_script::Item;
use std::alloc::Global;
use std::marker::Sync;
use std::random::RandomSource;
use std::sync::Wait;
use std::thread::{Threads, join_mut};

/// Runs the workers with the given eyes.
fn work_given<Rt: Threads + Sync, G: Gate>(
    pool: &Pool<'_, Rt, G>,
    given: &mut Option<Vec<Eye>>,
    lists: &[Sequence<Request>],
) -> Result<Vec<WorkerResult>, LiveFault>
    requires given { IfSome given.old (λ eyes. length eyes.items ≡ length lists.now) }
    requires some { 0 < length lists.now }
    requires few { length lists.now ≤ MAX_WORKERS }
    ensures { IfOk result (λ works. IfSome given.old (λ eyes. HaveWorked eyes.items lists.now works.items)) }
{
    let Some(eyes) = given.take() else {
        return Err(LiveFault::Closed);
    };
    work_all(pool.rt, pool.alloc, pool.gate, 0, eyes, lists)
}

/// Runs the writer and the workers in parallel. If no thread can be started the writer comes first, since workers may
/// wait for what it publishes.
fn run_both<Rt: Threads + Wait + Sync + RandomSource, G: Gate>(
    pool: &Pool<'_, Rt, G>,
    chain: &ChainHash,
    pen: &mut Pen,
    eyes: Vec<Eye>,
    batches: &[Sequence<Item>],
    lists: &[Sequence<Request>],
) -> (
    Result<WriterResult, LiveFault>,
    Result<Vec<WorkerResult>, LiveFault>,
)
    requires pen { (pen.old.published ≡ []) × (pen.old.pending ≡ []) }
    requires items { length (items_of batches.now) ≤ MAX_OPERATIONS }
    requires eyes { length eyes.items ≡ length lists.now }
    requires workers { (1 ≤ length lists.now) × (length lists.now ≤ MAX_WORKERS) }
    ensures board { pen.new.board ≡ pen.old.board }
    ensures written { IfOk result.0 (ArePublished chain.now batches.now pen.new.published) }
    ensures worked { IfOk result.1 (λ works. HaveWorked eyes.items lists.now works.items) }
{
    let mut given = Some(eyes);
    let (works, written) = join_mut(
        pool.rt,
        &mut || -> Result<Vec<WorkerResult>, LiveFault>
            requires sync { IsSync Rt.row }
            requires given { IfSome given (λ eyes. length eyes.items ≡ length lists.now) }
            requires some { 0 < length lists.now }
            requires few { length lists.now ≤ MAX_WORKERS }
        { work_given(pool, &mut given, lists) },
        &mut || -> Result<WriterResult, LiveFault>
            requires pen { (pen.now.published ≡ []) × (pen.now.pending ≡ []) }
            requires items { length (items_of batches.now) ≤ MAX_OPERATIONS }
        {
            let written = publish_batches(pool, chain, pen, batches);
            pool.gate.published(usize::MAX);
            written
        },
    );
    (written, works)
}

/// The report on the work of both sides.
fn gather(
    alloc: Global,
    pen: &mut Pen,
    written: Result<WriterResult, LiveFault>,
    works: Result<Vec<WorkerResult>, LiveFault>,
) -> Result<LiveReport, LiveFault>
    requires within { IfOk written
        (λ written. All (λ end. end ≤ length pen.old.published) written.ends.items) }
    requires board { IfOk works (λ works. All (λ worked. worked.eye.board ≡ pen.old.board) works.items) }
    ensures written { IfOk result (λ report. MatchResult written (IsOfWriter report) (λ _. ⊥)) }
    ensures tied { IfOk result (λ report. MatchResult works (λ works.
        AllZip (IsTied pen.old.published report.ends.items) works.items report.answers.items) (λ _. ⊥)) }
{
    let WriterResult {
        outcomes,
        ops,
        ends,
    } = written?;
    let answers = check_all_versions(alloc, pen, ends.as_slice(), works?)?;
    Ok(LiveReport {
        outcomes,
        ops,
        ends,
        answers,
    })
}

/// Runs one writer, which admits the items of each batch, in order, on a map of its own, and publishes what was
/// accepted once per batch, while workers answer payments: one worker for each of the 1 to 64 lists. A
/// worker answers its list in order, each payment on the map published last at that time.
///
/// The gate is for tests, and no answer depends on it. Worker `i`, counted from 0, passes it with `i` before each
/// payment, and the writer with the number of workers before each publication. Nobody has a map then. After each
/// publication the writer reports the number of published batches to the gate.
///
/// The report has one outcome per item, all accepted operations, and one answer per payment, with the version of its
/// map: the number of operations that made it. If a thread can't be started, its work is done on an existing one.
///
/// A fault is returned when all are done. `NoMemory` includes the search for a route. `Closed` and `Versions` don't
/// occur, which is tested and not proved: a board has as many places as workers, and shows what was published last.
pub fn live<Rt: Threads + Wait + Sync + RandomSource, G: Gate>(
    rt: &Rt,
    alloc: Global,
    chain: &ChainHash,
    known: &Known,
    batches: &Batches,
    lists: &RequestLists,
    gate: &G,
) -> Result<LiveReport, LiveFault>
    requires items { length (items_of batches.now) ≤ 2000000000 }
    requires workers { (1 ≤ length lists.now) × (length lists.now ≤ 64) }
    ensures report { IfOk result (IsReport chain.now known.now batches.now lists.now) }
{
    let lists = lists.as_slice();
    let (mut pen, eyes) = match board(rt, alloc, lists.len(), known) {
        Ok(made) => made,
        Err(PublishFault::NoMemory) => return Err(LiveFault::NoMemory),
        Err(PublishFault::Places) => return Err(LiveFault::Closed),
    };
    let pool = Pool {
        rt,
        alloc,
        workers: lists.len(),
        gate,
    };
    let (written, works) = run_both(&pool, chain, &mut pen, eyes, batches.as_slice(), lists);
    let report = gather(alloc, &mut pen, written, works);
    pen.end(rt);
    report
}
