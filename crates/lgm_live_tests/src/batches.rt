//! Two channels that are announced while routes over them are requested. The expected route was worked out by hand.

use crate::gates::{Holding, InTurns, LIMIT, Passes, Plan};
use crate::runs::TWO_CHANNELS;
use lgm_check::Refusal;
use lgm_gossip::{ChainHash, Point, Scid};
use lgm_graph::{Hop, Known};
use lgm_par::{Gate, Open};
use lgm_route::{Request, RouteFault};
use lgm_script::Item;
use lgm_server::{Batches, LiveAnswer, LiveReport, RequestLists, live};
use lgm_test_scripts::{item_of, spelled};
use std::alloc::{AllocError, Global};
use std::marker::Sync;
use std::process::Abort;
use std::random::RandomSource;
use std::sync::Wait;
use std::sync::atomic::{AtomicU64, Ordering};
use std::test::Fail;
use std::thread;
use std::thread::Threads;

const CHAIN: ChainHash = ChainHash([0xc1; 32]);

/// A node of the two channels: A by 0x0a, B by 0x0b, and C by 0x0c.
fn node(byte: u8) -> Point {
    let mut bytes = [byte; 33];
    bytes[0] = 2;
    Point(bytes)
}

/// The items of some lines, in the notation of `spelled`.
fn items_of(alloc: Global, lines: &str) -> Result<Vec<Item>, Fail> {
    let script = spelled(alloc, lines)?;
    let mut items = Vec::new(alloc);
    for line in script.lines() {
        items.push(item_of(alloc, line)?.ok_or("no item")?)?;
    }
    Ok(items)
}

/// A batch of the two channels, and then this many empty ones.
fn batches(alloc: Global, empty: usize) -> Result<Batches, Fail> {
    let mut batches = Batches::new(alloc);
    batches.push(items_of(alloc, TWO_CHANNELS)?)?;
    for _batch in 0..empty {
        batches.push(Vec::new(alloc))?;
    }
    Ok(batches)
}

/// This many workers, each with the payment from A to C this many times.
pub fn lists(alloc: Global, workers: usize, times: usize) -> Result<RequestLists, AllocError> {
    let request = Request {
        payer: node(0x0a),
        payee: node(0x0c),
        amount: 4_999_999,
        expiry: 700_009,
    };
    let mut lists = RequestLists::new(alloc);
    for _worker in 0..workers {
        let mut requests = Vec::new(alloc);
        for _time in 0..times {
            requests.push(request)?;
        }
        lists.push(requests)?;
    }
    Ok(lists)
}

/// The hops of the only route: B takes 200 msat and 2,000 ppm of 4,999,999, which are 9,999 msat, and 20 blocks.
fn the_hops() -> [Hop; 2] {
    [
        Hop {
            scid: Scid::new(600_000, 0, 0),
            from: node(0x0a),
            to: node(0x0b),
            amount: 5_010_198,
            expiry: 700_029,
        },
        Hop {
            scid: Scid::new(600_000, 1, 0),
            from: node(0x0b),
            to: node(0x0c),
            amount: 4_999_999,
            expiry: 700_009,
        },
    ]
}

fn is_right(answer: &LiveAnswer) -> bool {
    match &answer.result {
        Ok(route) => answer.version == 4 && route.as_slice() == the_hops().as_slice(),
        Err(fault) => answer.version == 0 && *fault == RouteFault::NoRoute,
    }
}

/// What is reported of these batches and lists, of which there are a few.
pub fn report_of<Rt: Abort + Threads + Wait + Sync + RandomSource, G: Gate>(
    rt: &Rt,
    alloc: Global,
    batches: &Batches,
    lists: &RequestLists,
    gate: &G,
) -> Result<LiveReport, Fail> {
    assert!(rt;
        batches.are_few() && lists.len() >= 1 && lists.len() <= 64,
        "a few"
    );
    Ok(live(rt, alloc, &CHAIN, &Known::all(), batches, lists, gate)?)
}

/// What is reported of the two channels and empty batches after them.
fn run<Rt: Abort + Threads + Wait + Sync + RandomSource, G: Gate>(
    rt: &Rt,
    alloc: Global,
    empty: usize,
    workers: usize,
    times: usize,
    gate: &G,
) -> Result<LiveReport, Fail> {
    let (batches, lists) = (batches(alloc, empty)?, lists(alloc, workers, times)?);
    report_of(rt, alloc, &batches, &lists, gate)
}

/// The two channels were accepted, and each worker gave this many right answers.
fn assert_right(rt: &impl Abort, report: &LiveReport, workers: usize, times: usize) {
    assert_eq!(rt; report.outcomes.as_slice(), [None; 4].as_slice());
    assert_eq!(rt; report.ops.len(), 4);
    assert_eq!(rt; report.answers.len(), workers);
    for answers in report.answers.as_slice() {
        assert_eq!(rt; answers.len(), times);
        assert!(rt; answers.iter().all(is_right), "a wrong answer");
    }
}

/// The versions of all answers, worker by worker.
fn versions(alloc: Global, report: &LiveReport) -> Result<Vec<u64>, AllocError> {
    let mut versions = Vec::new(alloc);
    for answers in report.answers.as_slice() {
        for answer in answers.as_slice() {
            versions.push(answer.version)?;
        }
    }
    Ok(versions)
}

/// Two workers, one or both of which this plan delays, answer right in the end.
fn assert_two_held<Rt: Abort + Threads + Wait + Sync + RandomSource>(
    rt: &Rt,
    alloc: Global,
    plan: Plan,
) -> Result<(), Fail> {
    let gate = Holding::new(plan, 2);
    let report = run(rt, alloc, 0, 2, 1, &gate)?;
    assert_right(rt, &report, 2, 1);
    assert_eq!(rt; report.ends.as_slice(), [4].as_slice());
    assert!(rt; gate.ended_by_itself(), "ended at the limit");
    Ok(())
}

#[test]
fn two_workers_wait_for_the_writer(rt: HostRuntime) -> Result<(), Fail> {
    assert_two_held(&rt, rt.alloc(), Plan::Writer)
}

#[test]
fn one_worker_waits_for_the_other(rt: HostRuntime) -> Result<(), Fail> {
    assert_two_held(&rt, rt.alloc(), Plan::Other)
}

#[test]
fn a_worker_sees_what_is_published_meanwhile(rt: HostRuntime) -> Result<(), Fail> {
    let gate = Holding::new(Plan::Turns, 1);
    let report = run(&rt, rt.alloc(), 1, 1, 2, &gate)?;
    assert_right(&rt, &report, 1, 2);
    assert_eq!(rt; report.ends.as_slice(), [4, 4].as_slice());
    let versions = versions(rt.alloc(), &report)?;
    assert_eq!(rt; versions.as_slice(), [0, 4].as_slice());
    assert!(rt; gate.ended_by_itself(), "ended at the limit");
    Ok(())
}

#[test]
fn all_workers_at_once(rt: HostRuntime) -> Result<(), Fail> {
    for (workers, all) in [(3usize, 3u64), (5, 5), (63, 63), (64, 64)] {
        let gate = Holding::new(Plan::All(all), workers);
        let report = run(&rt, rt.alloc(), 0, workers, 1, &gate)?;
        assert_right(&rt, &report, workers, 1);
        assert!(rt; gate.ended_by_itself(), "{workers} ended at the limit");
    }
    Ok(())
}

// Five workers of two payments each, and the writer with three batches.
#[test]
fn numbers_at_the_gate(rt: HostRuntime) -> Result<(), Fail> {
    let gate = Passes {
        counts: AtomicU64::new(0),
        published: AtomicU64::new(0),
        ended: AtomicU64::new(0),
    };
    let report = run(&rt, rt.alloc(), 2, 5, 2, &gate)?;
    assert_right(&rt, &report, 5, 2);
    assert_eq!(rt; gate.counts.load(Ordering::SeqCst), 0x0302_0202_0202);
    assert_eq!(rt; gate.published.load(Ordering::SeqCst), 0x0001_0203);
    assert_eq!(rt; gate.ended.load(Ordering::SeqCst), 1);
    Ok(())
}

// Each of the four items is a batch. The route is there with the last of them.
#[test]
fn four_payments_over_four_versions(rt: HostRuntime) -> Result<(), Fail> {
    let alloc = rt.alloc();
    let mut batches = Batches::new(alloc);
    for item in items_of(alloc, TWO_CHANNELS)? {
        let mut batch = Vec::new(alloc);
        batch.push(item)?;
        batches.push(batch)?;
    }
    let lists = lists(alloc, 1, 4)?;
    let gate = InTurns {
        begun: AtomicU64::new(0),
        passed: AtomicU64::new(0),
        published: AtomicU64::new(0),
        turns: AtomicU64::new(0),
    };
    let report = report_of(&rt, alloc, &batches, &lists, &gate)?;
    assert_eq!(rt; report.ends.as_slice(), [1, 2, 3, 4].as_slice());
    for answers in report.answers.as_slice() {
        for answer in answers.as_slice() {
            assert_eq!(rt; answer.result.is_ok(), answer.version == 4);
        }
    }
    let versions = versions(alloc, &report)?;
    assert_eq!(rt; versions.as_slice(), [1, 2, 3, 4].as_slice());
    assert!(rt;
        gate.turns.load(Ordering::SeqCst) < LIMIT,
        "ended at the limit"
    );
    Ok(())
}

#[test]
fn nothing_is_stored(rt: HostRuntime) -> Result<(), Fail> {
    let report = run(&rt, rt.alloc(), 0, 3, 1, &Open)?;
    assert_right(&rt, &report, 3, 1);
    Ok(())
}

#[test]
fn a_worker_may_have_no_payment(rt: HostRuntime) -> Result<(), Fail> {
    let report = run(&rt, rt.alloc(), 2, 2, 0, &Open)?;
    assert_right(&rt, &report, 2, 0);
    assert_eq!(rt; report.ends.as_slice(), [4, 4, 4].as_slice());
    Ok(())
}

// The second announcement of a channel between the same nodes is refused, and a close of a channel that isn't there.
#[test]
fn refusals_are_reported(rt: HostRuntime) -> Result<(), Fail> {
    let alloc: Global = rt.alloc();
    let channel = "m ca(600000x0x0,A,B) all 100000";
    let close = "close 600000x0x0";
    let first = format!(in alloc; "{close}\n{channel}")?;
    let second = format!(in alloc; "{channel}\n{close}")?;
    let mut batches = Batches::new(alloc);
    batches.push(items_of(alloc, first.as_str())?)?;
    batches.push(items_of(alloc, second.as_str())?)?;
    let lists = lists(alloc, 1, 1)?;
    let report = report_of(&rt, alloc, &batches, &lists, &Open)?;
    let wanted = [
        Some(Refusal::UnknownChannel),
        None,
        Some(Refusal::Known),
        None,
    ];
    assert_eq!(rt; report.outcomes.as_slice(), wanted.as_slice());
    assert_eq!(rt; report.ends.as_slice(), [1, 2].as_slice());
    assert_eq!(rt; report.ops.len(), 2);
    Ok(())
}
