//! Work that is shared by workers.

use lgm_graph::Known;
use lgm_par::Gate;
use lgm_test_scripts::{ended, spelled};
use std::alloc::Global;
use std::process::Abort;
use std::random::RandomSource;
use std::sync::atomic::{AtomicU64, Ordering};
use std::test::Fail;
use std::thread;
use std::thread::Threads;

/// The maximum number of turns that a piece waits.
const LIMIT: u64 = 100_000_000;

/// Counts how often each of the first eight pieces passed, and delays a first piece while more than a number of them
/// passed without a second one.
#[derive(Drop)]
pub struct Counting {
    passes: AtomicU64,
    alone: u64,
    turns: AtomicU64,
}

impl Counting {
    /// How often a piece passed.
    pub fn of_piece(&self, piece: usize) -> u64 {
        (self.passes.load(Ordering::SeqCst) >> (8 * (piece % 8))) % 256
    }

    /// Whether no piece waited to the limit.
    pub fn went_on(&self) -> bool {
        self.turns.load(Ordering::SeqCst) < LIMIT
    }
}

impl Gate for Counting {
    fn pass(&self, piece: usize) {
        if piece < 8 {
            self.passes.fetch_add(1 << (8 * piece), Ordering::SeqCst);
        }
        if piece > 0 {
            return;
        }
        let mut turns = 0;
        for turn in 0..LIMIT {
            turns = turn + 1;
            if self.of_piece(0) <= self.of_piece(1).saturating_add(self.alone) {
                break;
            }
            thread::yield_now();
        }
        self.turns.fetch_max(turns, Ordering::SeqCst);
    }
}

/// A gate that nothing has passed, which lets this many first pieces pass alone.
pub fn counter(alone: u8) -> Counting {
    Counting {
        passes: AtomicU64::new(0),
        alone: u64::from(alone),
        turns: AtomicU64::new(0),
    }
}

/// What is written for the script, which the source gives in one piece.
pub fn answered<Rt: Threads + Sync + RandomSource>(
    rt: &Rt,
    alloc: Global,
    script: &[u8],
    workers: usize,
    gate: &Counting,
) -> Result<Vec<u8>, Fail> {
    let known = Known::all();
    let (ended, writer) = ended(rt, alloc, &known, script, 1_000_000, workers, gate);
    ended?;
    Ok(Vec::from_slice(alloc, writer.taken())?)
}

/// Of two lines the first is delayed until the second has begun, each by a worker of its own. Both texts are in the
/// notation of [`spelled`].
fn assert_side_by_side<Rt: Abort + Threads + Sync + RandomSource>(
    rt: &Rt,
    alloc: Global,
    script: &str,
    want: &str,
) -> Result<(), Fail> {
    let (script, want) = (spelled(alloc, script)?, spelled(alloc, want)?);
    let gate = counter(0);
    let text = answered(rt, alloc, script.as_bytes(), 2, &gate)?;
    assert_eq!(rt; text.as_slice(), want.as_bytes());
    assert!(rt; gate.went_on(), "ended at the limit");
    assert_eq!(rt; gate.of_piece(1), 1);
    Ok(())
}

#[test]
fn items_side_by_side(rt: HostRuntime) -> Result<(), Fail> {
    let script = "m ca(600000x1x0,A,B) all 100000\nm ca(600000x2x0,A,B) all 100000\n";
    assert_side_by_side(&rt, rt.alloc(), script, "1 accepted\n2 accepted\n")
}

#[test]
fn questions_side_by_side(rt: HostRuntime) -> Result<(), Fail> {
    let script = "q [0105 H 0000]\nq [0105 H 0000]\n";
    assert_side_by_side(&rt, rt.alloc(), script, "1 [0106 H 01]\n2 [0106 H 01]\n")
}

/// More announcements than are taken together. One worker takes what 288 KiB of their text hold, so there are four
/// groups of some 900 KiB. Several take 1,024, in two pieces and one more for each 128 KiB of their text, at most one a
/// worker, and then the last one.
#[test]
fn more_items_than_a_group_has(rt: HostRuntime) -> Result<(), Fail> {
    let alloc = rt.alloc();
    let mut script = String::new(alloc);
    let mut want = String::new(alloc);
    for line in 1..=1_025u32 {
        let item = format!(in alloc; "m ca({line}x0x0,A,B) all 100000\n")?;
        script.push_str(spelled(alloc, &item)?.as_str())?;
        want.push_str(format!(in alloc; "{line} accepted\n")?.as_str())?;
    }
    for (workers, groups, pieces) in [(1usize, 4u64, 1usize), (2, 2, 2), (3, 2, 3), (64, 2, 8)] {
        let gate = counter(255);
        let text = answered(&rt, alloc, script.as_bytes(), workers, &gate)?;
        assert_eq!(rt; text.as_slice(), want.as_bytes(), "by {workers} workers");
        assert_eq!(rt; gate.of_piece(0), groups, "by {workers} workers");
        for piece in 1usize..8 {
            let passes = u64::from(piece < pieces);
            assert_eq!(rt; gate.of_piece(piece), passes, "by {workers} workers");
        }
    }
    Ok(())
}

/// What isn't of a kind with the lines before it ends their group: a wrong line doesn't, if it begins as they do.
#[test]
fn what_ends_a_group(rt: HostRuntime) -> Result<(), Fail> {
    let alloc = rt.alloc();
    let script =
        b"close 1x0x0\nclose x\nclose 2x0x0\n# a comment\nclose 3x0x0\ncommit\nclose 4x0x0\nq 00\nclose 5x0x0".as_slice();
    let want =
        "1 unknown-channel\n2 bad\n3 unknown-channel\n5 unknown-channel\n6 commit 0\n7 unknown-channel\n\
        8 malformed\n9 unknown-channel\n";
    let gate = counter(255);
    let text = answered(&rt, alloc, script, 4, &gate)?;
    assert_eq!(rt; text.as_slice(), want.as_bytes());
    assert_eq!(rt; gate.of_piece(0), 5);
    assert_eq!(rt; gate.of_piece(2), 1);
    Ok(())
}
