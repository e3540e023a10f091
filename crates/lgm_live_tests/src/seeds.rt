//! Random bytes: each map that strangers' points come into is hashed with sixteen of the runtime's.

use crate::runs;
use lgm_graph::Known;
use lgm_par::Open;
use lgm_publish::board;
use std::alloc::Global;
use std::io;
use std::random::RandomSource;
use std::sync::Wait;
use std::sync::atomic::{AtomicU64, Ordering};
use std::test::Fail;
use std::thread::Threads;

/// A runtime that counts the random bytes that are requested.
#[derive(Drop)]
struct Asked<'a, Rt> {
    rt: &'a Rt,
    bytes: AtomicU64,
}

impl<Rt: Threads> Threads for Asked<'_, Rt> {}

impl<Rt: Wait> Wait for Asked<'_, Rt> {}

impl<Rt: RandomSource> RandomSource for Asked<'_, Rt> {
    fn fill_bytes(&self, buf: &mut [u8]) -> io::Result<()> {
        self.bytes.fetch_add(buf.len() as u64, Ordering::SeqCst);
        self.rt.fill_bytes(buf)
    }
}

/// A runtime that wasn't used yet.
fn unasked<Rt>(rt: &Rt) -> Asked<'_, Rt> {
    Asked {
        rt,
        bytes: AtomicU64::new(0),
    }
}

/// Both maps of a script have the same seed.
#[test]
fn a_script_takes_one_seed(rt: HostRuntime) -> Result<(), Fail> {
    let asked = unasked(&rt);
    let (known, alloc) = (Known::all(), rt.alloc());
    let (ended, _) = lgm_test_scripts::ended(&asked, alloc, &known, b"commit\n", 10, 1, &Open);
    ended?;
    assert_eq!(rt; asked.bytes.load(Ordering::SeqCst), 16);
    Ok(())
}

/// Both maps of a board have the same seed.
#[test]
fn a_board_takes_one_seed(rt: HostRuntime) -> Result<(), Fail> {
    let asked = unasked(&rt);
    let (pen, _) = board(&asked, rt.alloc(), 1, &Known::all())?;
    pen.end(&rt);
    assert_eq!(rt; asked.bytes.load(Ordering::SeqCst), 16);
    Ok(())
}

/// One is that of the board, and one that of the writer's own map.
#[test]
fn a_script_beside_its_workers_takes_two_seeds(rt: HostRuntime) -> Result<(), Fail> {
    let asked = unasked(&rt);
    let (fault, _) = runs::ended(&asked, rt.alloc(), b"commit\n", 10, 1, &Open);
    assert_eq!(rt; fault, None);
    assert_eq!(rt; asked.bytes.load(Ordering::SeqCst), 32);
    Ok(())
}
