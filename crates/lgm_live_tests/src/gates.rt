//! Gates that hold workers and the writer, and count what passes.

use lgm_par::Gate;
use std::sync::atomic::{AtomicU64, Ordering};
use std::thread;

/// The maximum number of turns that anything waits.
pub const LIMIT: u64 = 100_000_000;

/// Who waits for whom.
#[derive(Clone, Copy)]
pub enum Plan {
    /// Each worker waits until the writer passes.
    Writer,
    /// Worker 0 waits until another one passes.
    Other,
    /// Each worker waits until this many have begun.
    All(u64),
    /// The writer waits at its first pass until the only worker begins its second one, which waits until the writer
    /// begins its second one.
    Turns,
}

/// Counts what begins to pass, and delays it by a plan.
#[derive(Drop)]
pub struct Holding {
    plan: Plan,
    workers: usize,
    writer: AtomicU64,
    first: AtomicU64,
    others: AtomicU64,
    pub turns: AtomicU64,
}

impl Holding {
    pub fn new(plan: Plan, workers: usize) -> Holding {
        Holding {
            plan,
            workers,
            writer: AtomicU64::new(0),
            first: AtomicU64::new(0),
            others: AtomicU64::new(0),
            turns: AtomicU64::new(0),
        }
    }

    fn passed(&self, piece: usize) -> &AtomicU64 {
        if piece == self.workers {
            &self.writer
        } else if piece == 0 {
            &self.first
        } else {
            &self.others
        }
    }

    /// Waits until this many passes have begun, of which these count.
    fn hold(&self, passes: &AtomicU64, more: &AtomicU64, wanted: u64) {
        let mut turns = 0;
        for turn in 0..LIMIT {
            turns = turn + 1;
            let begun = passes.load(Ordering::SeqCst);
            if begun >= wanted || more.load(Ordering::SeqCst) >= wanted.saturating_sub(begun) {
                break;
            }
            thread::yield_now();
        }
        self.turns.fetch_add(turns, Ordering::SeqCst);
    }

    pub fn ended_by_itself(&self) -> bool {
        let turns = self.turns.load(Ordering::SeqCst);
        0 < turns && turns < LIMIT
    }
}

impl Gate for Holding {
    fn pass(&self, piece: usize) {
        let before = self.passed(piece).fetch_add(1, Ordering::SeqCst);
        let none = AtomicU64::new(0);
        let writes = piece == self.workers;
        match self.plan {
            Plan::Writer if !writes => self.hold(&self.writer, &none, 1),
            Plan::Other if piece == 0 => self.hold(&self.others, &none, 1),
            Plan::All(wanted) if !writes => self.hold(&self.first, &self.others, wanted),
            Plan::Turns if writes && before == 0 => self.hold(&self.first, &none, 2),
            Plan::Turns if !writes && before == 1 => self.hold(&self.writer, &none, 2),
            _ => {}
        }
    }
}

/// Counts how often the gate was passed with each number below eight, and what it is told of publications.
#[derive(Drop)]
pub struct Passes {
    /// Eight bits for each number.
    pub counts: AtomicU64,
    /// Eight bits for each number of batches, the last one first.
    pub published: AtomicU64,
    pub ended: AtomicU64,
}

impl Gate for Passes {
    fn pass(&self, piece: usize) {
        if piece < 8 {
            self.counts.fetch_add(1 << (8 * piece), Ordering::SeqCst);
        }
    }

    fn published(&self, batches: usize) {
        if batches == usize::MAX {
            self.ended.fetch_add(1, Ordering::SeqCst);
        } else {
            let before = self.published.load(Ordering::SeqCst);
            let all = (before << 8) | batches as u64;
            self.published.store(all, Ordering::SeqCst);
        }
    }
}

/// Lets one worker and the writer run in lockstep: each payment follows one more publication.
#[derive(Drop)]
pub struct InTurns {
    pub begun: AtomicU64,
    pub passed: AtomicU64,
    pub published: AtomicU64,
    pub turns: AtomicU64,
}

impl InTurns {
    fn hold(&self, count: &AtomicU64, wanted: u64) {
        let mut turns = 0;
        for turn in 0..LIMIT {
            turns = turn + 1;
            if count.load(Ordering::SeqCst) >= wanted {
                break;
            }
            thread::yield_now();
        }
        self.turns.fetch_max(turns, Ordering::SeqCst);
    }
}

impl Gate for InTurns {
    fn pass(&self, piece: usize) {
        if piece == 0 {
            let before = self.begun.fetch_add(1, Ordering::SeqCst);
            self.hold(&self.published, before.saturating_add(1));
        } else {
            let before = self.passed.fetch_add(1, Ordering::SeqCst);
            if before > 0 {
                self.hold(&self.begun, before.saturating_add(1));
            }
        }
    }

    fn published(&self, _batches: usize) {
        self.published.fetch_add(1, Ordering::SeqCst);
    }
}
