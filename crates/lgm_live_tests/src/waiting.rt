//! Payments that wait together for what is above them.

use crate::runs::ended;
use lgm_par::Gate;
use lgm_test_scripts::spelled;
use std::alloc::{AllocError, Global};
use std::sync::atomic::{AtomicU64, Ordering};
use std::test::Fail;
use std::thread;

/// The maximum number of turns that the writer waits for the workers.
const LIMIT: u64 = 100_000_000;

/// How many turns it waits once all have begun, so that they wait for it.
const WHILE: u64 = 100_000;

const WORKERS: usize = 8;

/// Delays each publication until all workers have begun their payments, and a while longer.
#[derive(Drop)]
struct AfterAll {
    begun: AtomicU64,
}

impl Gate for AfterAll {
    fn pass(&self, piece: usize) {
        if piece < WORKERS {
            self.begun.fetch_add(1, Ordering::SeqCst);
            return;
        }
        for _turn in 0..LIMIT {
            if self.begun.load(Ordering::SeqCst) >= WORKERS as u64 {
                break;
            }
            thread::yield_now();
        }
        for _turn in 0..WHILE {
            thread::yield_now();
        }
    }
}

/// A channel, a commit, and a payment for each worker.
fn script(alloc: Global) -> Result<String, AllocError> {
    let channel = "m ca(7x0x0,P0,P1) all 100000\nm cu(7x0x0,0,1) P0 -\ncommit\n";
    let mut lines = String::from_str(alloc, channel)?;
    for _worker in 0..WORKERS {
        lines.push_str("route P0 P1 1000 700000 S\n")?;
    }
    spelled(alloc, lines.as_str())
}

/// All payments are answered on the map of the commit.
fn text(alloc: Global) -> Result<String, AllocError> {
    let mut text = format!(in alloc; "1 accepted\n2 accepted\n3 commit 2\n")?;
    for number in 4..4 + WORKERS {
        text.push_str(format!(in alloc;
            "{number} at 2 same\n{number} route 1000 700000 1\n\
            {number} hop 7x0x0 2d020203e804030aae600822111111111111111111111111111111111111111111111111111111111111111103e8\n"
        )?
        .as_str())?;
    }
    Ok(text)
}

/// More workers wait behind the commit than there are publications. If a publication woke only one of those that wait,
/// the others would wait for good.
#[test]
fn a_publication_wakes_all_that_wait(rt: HostRuntime) -> Result<(), Fail> {
    let alloc = rt.alloc();
    let (script, want) = (script(alloc)?, text(alloc)?);
    let gate = AfterAll {
        begun: AtomicU64::new(0),
    };
    let (fault, writer) = ended(&rt, alloc, script.as_bytes(), 1_000, WORKERS, &gate);
    assert_eq!(rt; fault, None);
    assert_eq!(rt; gate.begun.load(Ordering::SeqCst), WORKERS as u64);
    assert_eq!(rt; writer.taken(), want.as_bytes());
    Ok(())
}
