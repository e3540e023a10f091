//! Devices that fail in whole scripts whose payments are answered beside a writer.

use crate::runs::run_by;
use lgm_par::Open;
use lgm_server::RunFault;
use lgm_test_scripts::{FailingSink, FailingSource, spelled};
use std::alloc::{AllocError, Global};
use std::marker::Sync;
use std::random::RandomSource;
use std::sync::Wait;
use std::test::Fail;
use std::thread::Threads;

/// Two channels, a payment for each of two workers, and lines that have no answer of the map.
const SCRIPT: &str = "m ca(600000x0x0,A,B) all 100000\n\
    m ca(600000x1x0,B,C) all 100000\n\
    m cu(600000x0x0,0,1,delta=10) A -\n\
    m cu(600000x1x0,0,1,delta=20,base=200,millionths=2000) B -\n\
    commit\n\
    route A C 4999999 700009 S\n\
    route A C 4999999 700009 S\n\
    hello\n\
    # a note\n\
    q 00\n";

/// Its text.
const TEXT: &str = "1 accepted\n\
    2 accepted\n\
    3 accepted\n\
    4 accepted\n\
    5 commit 4\n\
    6 at 4 same\n\
    6 route 5010198 700029 2\n\
    6 hop 600000x0x0 [14 02034c4b3f 04030aae69 0608 0927c00000010000]\n\
    6 hop 600000x1x0 [2f 02034c4b3f 04030aae69 0823 S 4c4b3f]\n\
    7 at 4 same\n\
    7 route 5010198 700029 2\n\
    7 hop 600000x0x0 [14 02034c4b3f 04030aae69 0608 0927c00000010000]\n\
    7 hop 600000x1x0 [2f 02034c4b3f 04030aae69 0823 S 4c4b3f]\n\
    8 bad\n\
    10 not-live\n";

/// How the script ends if a read and a write fail, each by its number, and what is written then.
fn ended<Rt: Threads + Wait + Sync + RandomSource>(
    rt: &Rt,
    alloc: Global,
    script: &[u8],
    read: usize,
    write: usize,
) -> Result<(Option<RunFault>, Vec<u8>), AllocError> {
    let mut reader = FailingSource::new(script, read);
    let mut writer = FailingSink::new(Vec::new(alloc), write);
    let ended = run_by(rt, alloc, &mut reader, &mut writer, 2, &Open);
    Ok((ended.err(), writer.taken))
}

// Each read of ten bytes, and those that find the end.
#[test]
fn failing_reads(rt: HostRuntime) -> Result<(), Fail> {
    let (script, text) = (spelled(rt.alloc(), SCRIPT)?, spelled(rt.alloc(), TEXT)?);
    let script = script.as_bytes();
    let mut reads = 0;
    for read in 1usize..10_000 {
        let (fault, written) = ended(&rt, rt.alloc(), script, read, 0)?;
        if fault.is_none() {
            assert_eq!(rt; written.as_slice(), text.as_bytes());
            break;
        }
        assert_eq!(rt; fault, Some(RunFault::Read), "read {read}");
        assert!(rt; written.is_empty(), "read {read}");
        reads = read;
    }
    assert!(rt; reads > script.len() / 10);
    Ok(())
}

// Each byte that is written.
#[test]
fn failing_writes(rt: HostRuntime) -> Result<(), Fail> {
    let (script, text) = (spelled(rt.alloc(), SCRIPT)?, spelled(rt.alloc(), TEXT)?);
    for write in 1..=text.len() {
        let (fault, written) = ended(&rt, rt.alloc(), script.as_bytes(), 0, write)?;
        assert_eq!(rt; fault, Some(RunFault::Write), "write {write}");
        assert_eq!(rt; written.len() + 1, write);
        assert!(rt;
            text.as_bytes().starts_with(written.as_slice()),
            "write {write}"
        );
    }
    Ok(())
}
