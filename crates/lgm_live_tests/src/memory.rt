//! The memory of runs, as Linux counts it.

use crate::batches::{lists, report_of};
use lgm_graph::Known;
use lgm_par::Open;
use lgm_script::{Failed, MemorySource, Sink};
use lgm_server::Batches;
use lgm_test_scripts::{CHAIN, item_of, run_by, spelled};
use std::alloc::Global;
use std::fs;
use std::rt::Files;
use std::test::Fail;

/// The most memory that the process has had so far, in KiB.
fn most_memory<Rt: Files + AllocGlobal>(rt: &Rt) -> Result<u64, Fail> {
    let status = fs::read_to_string(rt, "/proc/self/status")?;
    for line in status.lines() {
        if let Some(figure) = line.strip_prefix("VmHWM:") {
            let number = figure.trim().strip_suffix(" kB").ok_or("no unit")?;
            return Ok(number.parse::<u64>()?);
        }
    }
    Err(Fail::from("no figure"))
}

/// The line that announces a channel between the nodes 0 and 1 by a message of 65,535 bytes, the most that one may
/// have.
fn long_channel(alloc: Global, block: u32) -> Result<String, Fail> {
    let line = format!(in alloc; "m ca({block}x0x0,P0,P1)")?;
    let message = spelled(alloc, line.as_str())?;
    let zeros = String::from_utf8(vec![in alloc; b'0'; 131_072usize.saturating_sub(
        message.len()
    )]?)?;
    Ok(format!(in alloc; "{message}{zeros} all 100000\n")?)
}

/// A sink that stores nothing of what it accepts.
#[derive(Drop)]
struct Counter {
    taken: u64,
}

impl Sink for Counter {
    ghost use Rattle.std.specs.Prelude.{None};

    ghost seen = { λ _. record { taken = None; failures = 0 } };

    fn write(&mut self, bytes: &[u8]) -> Result<usize, Failed> {
        self.taken = self.taken.saturating_add(bytes.len() as u64);
        Ok(bytes.len())
    }
}

/// A query that names the channel 7x0x0 2,000 times, after its announcement.
fn repeated_query(alloc: Global) -> Result<String, Fail> {
    let mut script = long_channel(alloc, 7)?;
    script.push_str(format!(in alloc; "commit\nq 0105{CHAIN}3e8100")?.as_str())?;
    for _ in 0..2_000 {
        script.push_str("0000070000000000")?;
    }
    Ok(script)
}

/// The reply has 131,070,000 bytes of announcements, twice as many digits, and 95 bytes in the other lines. If it
/// copied them from the map, it would take 128,000 KiB.
#[test]
fn replies_borrow_from_the_map(rt: HostRuntime) -> Result<(), Fail> {
    let alloc = rt.alloc();
    let script = repeated_query(alloc)?;
    let mut reader = MemorySource::new(script.as_bytes(), 1_048_576);
    let mut writer = Counter { taken: 0 };
    let before = most_memory(&rt)?;
    run_by(
        &rt,
        alloc,
        &Known::all(),
        &mut reader,
        &mut writer,
        2,
        &Open,
    )?;
    assert_eq!(rt; writer.taken, 2_000 * 131_073 + 95);
    let more = most_memory(&rt)?.saturating_sub(before);
    assert!(rt; more < 64_000, "{more} KiB more");
    Ok(())
}

/// Twenty channels are published 400 times. If a board leaked them, that would be 512,000 KiB. If `rt try` runs
/// the test, freed memory is kept for a while, so that it takes up to 300,000.
#[test]
fn an_ended_board_keeps_nothing(rt: HostRuntime) -> Result<(), Fail> {
    let alloc = rt.alloc();
    let mut items = Vec::new(alloc);
    for block in 0..20u32 {
        let line = long_channel(alloc, block)?;
        items.push(item_of(alloc, line.trim())?.ok_or("no item")?)?;
    }
    let mut batches = Batches::new(alloc);
    batches.push(items)?;
    let lists = lists(alloc, 1, 0)?;
    let before = most_memory(&rt)?;
    for _ in 0..400 {
        let report = report_of(&rt, alloc, &batches, &lists, &Open)?;
        assert_eq!(rt; report.ends.as_slice(), [20].as_slice());
    }
    let more = most_memory(&rt)?.saturating_sub(before);
    assert!(rt; more < 400_000, "{more} KiB more");
    Ok(())
}
