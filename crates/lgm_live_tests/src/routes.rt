//! Whole scripts through `run_live`: payments that are answered while items are admitted. The expected routes were
//! worked out by hand.

use crate::runs::{TWO_CHANNELS, ended};
use lgm_par::{Gate, Open};
use lgm_script::MemorySink;
use lgm_server::RunFault;
use lgm_test_scripts::spelled;
use std::alloc::{AllocError, Global};
use std::marker::Sync;
use std::random::RandomSource;
use std::sync::Wait;
use std::sync::atomic::{AtomicU64, Ordering};
use std::test::Fail;
use std::thread;
use std::thread::Threads;

/// The maximum number of turns that a worker waits.
const LIMIT: u64 = 100_000_000;

/// What is asked of the two channels, an update that isn't newer, and lines that have no answer of the map.
const REQUESTS: &str = "commit\n\
    route A C 4999999 700009 S\n\
    route C A 4999999 700009 S\n\
    route B B 4999999 700009 S\n\
    route A C 0 700009 S\n\
    m cu(600000x0x0,0,1) A -\n\
    commit\n\
    hello\n\
    q 00\n\
    filter 7 00\n\
    \n\
    filter 1000 00";

/// The answers to the items and commits, to the payments on the map of all items, and to the others.
const ANSWERS: &str = "2 accepted\n\
    3 accepted\n\
    4 accepted\n\
    5 accepted\n\
    6 commit 4\n\
    7 at 4 same\n\
    7 route 5010198 700029 2\n\
    7 hop 600000x0x0 [14 02034c4b3f 04030aae69 0608 0927c00000010000]\n\
    7 hop 600000x1x0 [2f 02034c4b3f 04030aae69 0823 S 4c4b3f]\n\
    8 at 4 same\n\
    8 no-route\n\
    9 at 4 same\n\
    9 self-payment\n\
    10 at 4 same\n\
    10 amount-zero\n\
    11 not-newer\n\
    12 commit 4\n\
    13 bad\n\
    14 not-live\n\
    15 not-live\n\
    17 bad\n";

/// A comment, the two channels, and the requests.
fn script(alloc: Global) -> Result<String, AllocError> {
    let script = format!(in alloc; "#\n{TWO_CHANNELS}{REQUESTS}")?;
    spelled(alloc, script.as_str())
}

/// Delays each worker until the writer has begun this many publications, or has ended.
#[derive(Drop)]
struct Behind {
    workers: usize,
    wanted: u64,
    begun: AtomicU64,
    ended: AtomicU64,
}

impl Behind {
    fn new(workers: usize, wanted: u64) -> Behind {
        Behind {
            workers,
            wanted,
            begun: AtomicU64::new(0),
            ended: AtomicU64::new(0),
        }
    }

    /// Whether no worker need wait any more.
    fn is_over(&self) -> bool {
        self.begun.load(Ordering::SeqCst) >= self.wanted || self.ended.load(Ordering::SeqCst) > 0
    }
}

impl Gate for Behind {
    fn pass(&self, piece: usize) {
        if piece == self.workers {
            self.begun.fetch_add(1, Ordering::SeqCst);
            return;
        }
        for _turn in 0..LIMIT {
            if self.is_over() {
                break;
            }
            thread::yield_now();
        }
    }

    fn published(&self, batches: usize) {
        if batches == usize::MAX {
            self.ended.fetch_add(1, Ordering::SeqCst);
        }
    }
}

/// How the script ends, and the sink with what is written then.
fn told<Rt: Threads + Wait + Sync + RandomSource, G: Gate>(
    rt: &Rt,
    alloc: Global,
    script: &[u8],
    workers: usize,
    gate: &G,
) -> (Option<RunFault>, MemorySink) {
    ended(rt, alloc, script, 1_000, workers, gate)
}

/// Whether this may be the answer to a payment over the two channels.
fn is_lawful(told: &str) -> bool {
    told == "2 at 0 same\n2 no-route\n"
        || told
            == "2 at 2 same\n2 route 1000 700000 1\n\
            2 hop 7x0x0 2d020203e804030aae600822111111111111111111111111111111111111111111111111111111111111111103e8\n"
}

#[test]
fn a_payment_may_come_first(rt: HostRuntime) -> Result<(), Fail> {
    let alloc = rt.alloc();
    let lines = "#\n\
        route P0 P1 1000 700000 S\n\
        m ca(7x0x0,P0,P1) all 100000\n\
        m cu(7x0x0,0,1) P0 -\n";
    let script = spelled(alloc, lines)?;
    let (fault, writer) = told(&rt, alloc, script.as_bytes(), 1, &Open);
    assert_eq!(rt; fault, None);
    let Some(told) = writer
        .taken()
        .strip_suffix(b"3 accepted\n4 accepted\n".as_slice())
    else {
        return Err(Fail::from(std::fmt::Error));
    };
    assert!(rt; is_lawful(std::str::from_utf8(told)?));
    Ok(())
}

#[test]
fn an_empty_script_has_one_batch(rt: HostRuntime) -> Result<(), Fail> {
    let alloc = rt.alloc();
    let gate = Behind::new(64, 1);
    let (fault, writer) = told(&rt, alloc, b"", 64, &gate);
    assert_eq!(rt; fault, None);
    assert!(rt; writer.taken().is_empty());
    assert_eq!(rt; gate.begun.load(Ordering::SeqCst), 1);
    Ok(())
}

/// To be run with each allocation refused in turn. The writer fails if memory is refused to it.
#[test]
fn refused_memory(rt: HostRuntime) {
    let alloc = rt.alloc();
    let (Ok(script), Ok(want)) = (script(alloc), spelled(alloc, ANSWERS)) else {
        return;
    };
    let gate = Behind::new(2, 3);
    let (fault, writer) = told(&rt, alloc, script.as_bytes(), 2, &gate);
    match fault {
        None => assert_eq!(rt; writer.taken(), want.as_bytes()),
        Some(fault) => {
            assert!(rt; fault != RunFault::Read && fault != RunFault::Versions);
            assert!(rt; want.as_bytes().starts_with(writer.taken()));
        }
    }
}

/// A payment before all items, one after the first commit, and one after the second: the later ones are answered on
/// what was committed before them.
#[test]
fn a_payment_waits_for_what_is_above_it(rt: HostRuntime) -> Result<(), Fail> {
    let alloc = rt.alloc();
    let lines = "m ca(7x0x0,P0,P1) all 100000\n\
        m cu(7x0x0,0,1) P0 -\n\
        commit\n\
        route P0 P1 1000 700000 S\n\
        close 7x0x0\n\
        commit\n\
        route P0 P1 1000 700000 S\n\
        route P0 P1 1000 700000 S\n";
    let script = spelled(alloc, lines)?;
    for workers in [1, 2, 3] {
        let (fault, writer) = told(&rt, alloc, script.as_bytes(), workers, &Open);
        assert_eq!(rt; fault, None);
        let first = writer.taken().starts_with(
            b"1 accepted\n2 accepted\n3 commit 2\n4 at 2 same\n4 route 1000 700000 1\n",
        ) || writer.taken().starts_with(
            b"1 accepted\n2 accepted\n3 commit 2\n4 at 3 same\n4 no-route\n",
        );
        assert!(rt; first, "{workers} workers");
        let last = b"5 accepted\n6 commit 3\n7 at 3 same\n7 no-route\n8 at 3 same\n8 no-route\n";
        assert!(rt; writer.taken().ends_with(last), "{workers} workers");
    }
    Ok(())
}

/// Delays the writer's second publication until the only worker has begun its second payment.
#[derive(Drop)]
struct Between {
    begun: AtomicU64,
    publications: AtomicU64,
    turns: AtomicU64,
}

impl Gate for Between {
    fn pass(&self, piece: usize) {
        if piece == 0 {
            self.begun.fetch_add(1, Ordering::SeqCst);
            return;
        }
        if self.publications.fetch_add(1, Ordering::SeqCst) != 1 {
            return;
        }
        let mut turns = 0;
        for turn in 0..LIMIT {
            turns = turn + 1;
            if self.begun.load(Ordering::SeqCst) >= 2 {
                break;
            }
            thread::yield_now();
        }
        self.turns.store(turns, Ordering::SeqCst);
    }
}

/// A payment after the first commit is answered while the writer waits before its second publication: the worker's
/// second payment begins only then.
#[test]
fn a_payment_is_answered_beside_the_writer(rt: HostRuntime) -> Result<(), Fail> {
    let alloc = rt.alloc();
    let lines = "m ca(7x0x0,P0,P1) all 100000\n\
        m cu(7x0x0,0,1) P0 -\n\
        commit\n\
        route P0 P1 1000 700000 S\n\
        route P0 P1 1000 700000 S\n\
        close 7x0x0\n\
        commit\n";
    let script = spelled(alloc, lines)?;
    let gate = Between {
        begun: AtomicU64::new(0),
        publications: AtomicU64::new(0),
        turns: AtomicU64::new(0),
    };
    let (fault, writer) = told(&rt, alloc, script.as_bytes(), 1, &gate);
    assert_eq!(rt; fault, None);
    assert!(rt;
        gate.turns.load(Ordering::SeqCst) < LIMIT,
        "ended at the limit"
    );
    let first =
        b"1 accepted\n2 accepted\n3 commit 2\n4 at 2 same\n4 route 1000 700000 1\n".as_slice();
    assert!(rt; writer.taken().starts_with(first));
    Ok(())
}
