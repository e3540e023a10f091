//! `lgm_par`: answers in order, and pieces that run in parallel.

use lgm_par::{Gate, Open, map_chunks};
use std::alloc::Global;
use std::sync::atomic::{AtomicU64, Ordering};
use std::thread;

/// The maximum number of turns that a piece waits.
const LIMIT: u64 = 100_000_000;

/// Counts what passes, and delays each piece below a number until that many have begun to pass.
#[derive(Drop)]
struct Holding {
    below: usize,
    wanted: u64,
    begun: AtomicU64,
    pieces: AtomicU64,
    turns: AtomicU64,
}

impl Gate for Holding {
    fn pass(&self, piece: usize) {
        self.begun.fetch_add(1, Ordering::SeqCst);
        if piece < 64 {
            self.pieces.fetch_or(1 << piece, Ordering::SeqCst);
        }
        if piece >= self.below {
            return;
        }
        let mut turns = 0;
        for turn in 0..LIMIT {
            turns = turn + 1;
            if self.begun.load(Ordering::SeqCst) >= self.wanted {
                break;
            }
            thread::yield_now();
        }
        self.turns.fetch_add(turns, Ordering::SeqCst);
    }
}

/// A gate that delays the pieces below a number until that many have begun.
fn held_below(below: usize, wanted: u64) -> Holding {
    Holding {
        below,
        wanted,
        begun: AtomicU64::new(0),
        pieces: AtomicU64::new(0),
        turns: AtomicU64::new(0),
    }
}

/// Only counts.
fn counting() -> Holding {
    held_below(0, 0)
}

fn double(x: &u32) -> u64 {
    u64::from(*x) * 2
}

/// Ten items in three pieces and in one, fewer items than workers, and no items. A bit for each piece that passed.
#[test]
fn items_in_pieces(rt: HostRuntime) {
    let ten = [1, 2, 3, 4, 5, 6, 7, 8, 9, 10];
    let cases: [(usize, &[u32], &[u64], u64, u64); 4] = [
        (3, &ten, &[2, 4, 6, 8, 10, 12, 14, 16, 18, 20], 3, 7),
        (1, &ten, &[2, 4, 6, 8, 10, 12, 14, 16, 18, 20], 1, 1),
        (64, &[1, 2, 3], &[2, 4, 6], 3, 7),
        (4, &[], &[], 0, 0),
    ];
    for (workers, items, doubled, begun, pieces) in cases {
        let gate = counting();
        let answers = map_chunks(&rt, rt.alloc(), workers.clamp(1, 64), &gate, items, &double);
        let answers = answers.expect(&rt, "memory");
        assert_eq!(rt; answers.as_slice(), doubled);
        assert_eq!(rt; gate.begun.load(Ordering::SeqCst), begun);
        assert_eq!(rt; gate.pieces.load(Ordering::SeqCst), pieces);
    }
}

#[test]
fn open_gate(rt: HostRuntime) {
    let alloc: Global = rt.alloc();
    let answers = map_chunks(&rt, alloc, 1, &Open, &[1, 2], &double).expect(&rt, "memory");
    assert_eq!(rt; answers.as_slice(), [2, 4].as_slice());
}

// The first piece waits for the second, so both run at once.
#[test]
fn first_piece_waits_for_the_second(rt: HostRuntime) {
    let alloc: Global = rt.alloc();
    let gate = held_below(1, 2);
    let answers = map_chunks(&rt, alloc, 2, &gate, &[1, 2], &double).expect(&rt, "memory");
    assert_eq!(rt; answers.as_slice(), [2, 4].as_slice());
    let turns = gate.turns.load(Ordering::SeqCst);
    assert!(rt; 0 < turns && turns < LIMIT, "ended at the limit");
}

// Each of 64 pieces waits for all.
#[test]
fn all_pieces_at_once(rt: HostRuntime) {
    let alloc: Global = rt.alloc();
    let items = [3; 64];
    let gate = held_below(64, 64);
    let answers = map_chunks(&rt, alloc, 64, &gate, &items, &double).expect(&rt, "memory");
    assert_eq!(rt; answers.as_slice(), [6; 64].as_slice());
    assert_eq!(rt; gate.begun.load(Ordering::SeqCst), 64);
    assert!(rt;
        gate.turns.load(Ordering::SeqCst) < LIMIT,
        "ended at the limit"
    );
}

/// Lets the pieces of ten items start one after the other, the last piece first.
#[derive(Drop)]
struct Backwards {
    /// How many items are done before each piece.
    before: [u64; 3],
    done: AtomicU64,
    turns: AtomicU64,
}

impl Gate for Backwards {
    fn pass(&self, piece: usize) {
        let Some(wanted) = self.before.get(piece) else {
            return;
        };
        let mut turns = 0;
        for turn in 0..LIMIT {
            turns = turn + 1;
            if self.done.load(Ordering::SeqCst) >= *wanted {
                break;
            }
            thread::yield_now();
        }
        self.turns.fetch_max(turns, Ordering::SeqCst);
    }
}

// Piece 2 has the last three items, piece 1 the three before them, and piece 0 the first four: an item's answer is how
// many were done before it.
#[test]
fn pieces_of_four_three_and_three(rt: HostRuntime) {
    let alloc: Global = rt.alloc();
    let items = [0u32; 10];
    let gate = Backwards {
        before: [6, 3, 0],
        done: AtomicU64::new(0),
        turns: AtomicU64::new(0),
    };
    let answers = map_chunks(
        &rt,
        alloc,
        3,
        &gate,
        &items,
        &|_item| { gate.done.fetch_add(1, Ordering::SeqCst) },
    )
    .expect(&rt, "memory");
    assert_eq!(rt;
        answers.as_slice(),
        [6, 7, 8, 9, 3, 4, 5, 0, 1, 2].as_slice()
    );
    assert!(rt;
        gate.turns.load(Ordering::SeqCst) < LIMIT,
        "ended at the limit"
    );
}

// An item's answer is how many were done before it.
#[test]
fn one_worker_takes_the_items_in_order(rt: HostRuntime) {
    let items = [0u32; 10];
    let gate = counting();
    let done = AtomicU64::new(0);
    let answers = map_chunks(
        &rt,
        rt.alloc(),
        1,
        &gate,
        &items,
        &|_item| { done.fetch_add(1, Ordering::SeqCst) },
    )
    .expect(&rt, "memory");
    assert_eq!(rt;
        answers.as_slice(),
        [0, 1, 2, 3, 4, 5, 6, 7, 8, 9].as_slice()
    );
    assert_eq!(rt; gate.begun.load(Ordering::SeqCst), 1);
}
