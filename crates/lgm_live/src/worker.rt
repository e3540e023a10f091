//! The workers' side.

ghost use Rattle.std.specs.Prelude.{◌≡◌, ◌+◌, ◌<◌, ◌≤◌, length, IfOk};
ghost use Rattle.std.specs.Thread.{IsSync};
ghost use Rattle.lgm_store.specs.History.{fold};
ghost use Rattle.lgm_graph.specs.Edges.{edges_of};
ghost use Rattle.lgm_route.specs.Choice.{answer_of};
ghost use Rattle.lgm_live.specs.Answers.{AreAnsweredBy, NeverFall};
ghost use Rattle.lgm_live.specs.inner.WorkerResult.{HaveWorked};

use crate::fault::LiveFault;
use crate::report::LiveAnswer;
use lgm_board::{Eye, Guard};
use lgm_gossip::Sequence;
use lgm_par::{Gate, MAX_WORKERS};
use lgm_route::{Request, RouteFault};
use std::alloc::Global;
use std::marker::Sync;
use std::thread::{Threads, join};

/// What a worker has done: its answers, and its eye.
#[derive(Drop)]
pub(crate) struct WorkerResult {
    pub(crate) eye: Eye,
    pub(crate) answers: Vec<LiveAnswer>,
}

/// Answers a payment on the map that a guard shows.
fn answer(alloc: Global, guard: &Guard, request: &Request) -> Result<LiveAnswer, LiveFault>
    ensures version { IfOk result (λ answer. answer.version ≡ length guard.now.ops) }
    ensures result { IfOk result
        (λ answer. answer.result ≡ answer_of (edges_of guard.now.known (fold guard.now.ops)) request.now) }
{
    match lgm_route::answer(alloc, guard.map(), guard.view(), request) {
        Err(RouteFault::NoMemory) => Err(LiveFault::NoMemory),
        result => Ok(LiveAnswer {
            version: guard.version(),
            result,
        }),
    }
}

/// Answers the payments of a list, one after the other, each on the map published last.
fn work<G: Gate>(
    alloc: Global,
    gate: &G,
    worker: usize,
    eye: Eye,
    requests: &[Request],
) -> Result<WorkerResult, LiveFault>
    ensures board { IfOk result (λ worked. worked.eye.board ≡ eye.board) }
    ensures answered { IfOk result
        (λ worked. AreAnsweredBy eye.known worked.eye.ops requests.now worked.answers.items) }
    ensures rising { IfOk result (λ worked. NeverFall worked.answers.items) }
{
    let mut own = eye;
    let mut answers = Vec::new(alloc);
    for request in requests {
        gate.pass(worker);
        let guard = match own.enter() {
            Ok(guard) => guard,
            Err(_eye) => return Err(LiveFault::Closed),
        };
        let answer = answer(alloc, &guard, request);
        own = guard.leave();
        answers.push(answer?)?;
    }
    Ok(WorkerResult { eye: own, answers })
}

/// Answers each list with its eye, in parallel with the others. The workers are numbered from `first` on.
pub(crate) fn work_all<Rt: Threads + Sync, G: Gate>(
    rt: &Rt,
    alloc: Global,
    gate: &G,
    first: usize,
    mut eyes: Vec<Eye>,
    lists: &[Sequence<Request>],
) -> Result<Vec<WorkerResult>, LiveFault>
    requires same { length eyes.items ≡ length lists.now }
    requires some { 0 < length lists.now }
    requires few { first + length lists.now ≤ MAX_WORKERS }
    ensures { IfOk result (λ works. HaveWorked eyes.items lists.now works.items) }
{
    let half = lists.len() / 2;
    if half == 0 {
        return work_alone(alloc, gate, first, eyes, lists);
    }
    let rest = eyes.split_off(half)?;
    let (near, far) = lists.split_at(half);
    let (done, others) = join(
        rt,
        move || -> Result<Vec<WorkerResult>, LiveFault>
            requires sync { IsSync Rt.row }
            requires same { length eyes.items ≡ length near.now }
            requires some { 0 < length near.now }
            requires few { first + length near.now ≤ MAX_WORKERS }
            ensures { IfOk result (λ works. HaveWorked eyes.items near.entry.now works.items) }
        { work_all(rt, alloc, gate, first, eyes, near) },
        move || -> Result<Vec<WorkerResult>, LiveFault>
            requires sync { IsSync Rt.row }
            requires same { length rest.items ≡ length far.now }
            requires some { 0 < length far.now }
            requires few { first + half + length far.now ≤ MAX_WORKERS }
            ensures { IfOk result (λ works. HaveWorked rest.items far.entry.now works.items) }
        { work_all(rt, alloc, gate, first + half, rest, far) },
    );
    let mut works = done?;
    works.append(&mut others?)?;
    Ok(works)
}

/// Answers a single list with a single eye.
fn work_alone<G: Gate>(
    alloc: Global,
    gate: &G,
    worker: usize,
    mut eyes: Vec<Eye>,
    lists: &[Sequence<Request>],
) -> Result<Vec<WorkerResult>, LiveFault>
    requires one { length lists.now ≡ 1 }
    requires same { length eyes.items ≡ 1 }
    ensures { IfOk result (λ works. HaveWorked eyes.items lists.now works.items) }
{
    let Some(eye) = eyes.pop() else {
        unreachable!();
    };
    let mut works = Vec::new(alloc);
    works.push(work(alloc, gate, worker, eye, lists[0].as_slice())?)?;
    Ok(works)
}
