//! The memory that stored messages and payloads take, as Linux counts it.

use super::payload::{SECRET, two_hops};
use lgm_check::StoredChannel;
use lgm_gossip::Scid;
use lgm_payload::build;
use lgm_route::Route;
use lgm_store::Op;
use lgm_test_gossip::ops::channel;
use std::fs;
use std::mem::size_of;
use std::rt::Files;
use std::test::Fail;

/// The most memory that the process has had so far, in KiB.
pub fn most_memory<Rt: Files + AllocGlobal>(rt: &Rt) -> Result<u64, Fail> {
    let status = fs::read_to_string(rt, "/proc/self/status")?;
    for line in status.lines() {
        if let Some(figure) = line.strip_prefix("VmHWM:") {
            let number = figure.trim().strip_suffix(" kB").ok_or("no unit")?;
            return Ok(number.parse::<u64>()?);
        }
    }
    Err(Fail::from("no figure"))
}

/// An announcement without features has 432 bytes. Where these are part of the stored row, 100,000 rows take some 44,000
/// KiB; with an allocation of their own beside that room they would take twice as much.
#[test]
fn usual_announcements_are_part_of_their_rows(rt: HostRuntime) -> Result<(), Fail> {
    let alloc = rt.alloc();
    let Op::Channel(first) = channel(alloc, Scid::new(7, 0, 0), (10, 11), 100_000, &[])? else {
        return Err(Fail::from("no channel"));
    };
    assert!(rt; 2 * size_of::<StoredChannel>() >= 2 * 432, "too small");
    let stored = first.get();
    stored.bytes_encode_row();
    let row = stored.row();
    assert_eq!(rt; row.raw.as_slice().len(), 432);
    let before = most_memory(&rt)?;
    let mut rows = Vec::with_capacity(alloc, 100_000)?;
    for _ in 0..100_000 {
        rows.push(StoredChannel::of(alloc, &row)?)?;
    }
    let more = most_memory(&rt)?.saturating_sub(before);
    assert!(rt; more < 66_000, "{more} KiB more");
    Ok(())
}

/// 50,000 payloads of 21 and 48 bytes take some 6,000 KiB. With room for the longest that a message could have, they
/// would take 200,000 at least.
#[test]
fn payloads_take_the_room_that_they_need(rt: HostRuntime) -> Result<(), Fail> {
    let alloc = rt.alloc();
    let route = Route::of(alloc, &two_hops())?;
    let before = most_memory(&rt)?;
    let mut built = Vec::with_capacity(alloc, 25_000)?;
    for _ in 0..25_000 {
        built.push(build(alloc, &route, &SECRET)?)?;
    }
    let more = most_memory(&rt)?.saturating_sub(before);
    assert!(rt; more < 100_000, "{more} KiB more");
    Ok(())
}
