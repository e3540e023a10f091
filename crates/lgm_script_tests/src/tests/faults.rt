//! Devices that fail, and memory that is refused, at each place of two examples.

use super::examples::{Example, FEES, IDS};
use lgm_graph::Known;
use lgm_par::Open;
use lgm_server::RunFault;
use lgm_test_scripts::{FailingSink, FailingSource, run_by, spelled};
use std::alloc::{AllocError, Global};
use std::random::RandomSource;
use std::test::Fail;
use std::thread::Threads;

/// An example, spelled out.
#[derive(Drop)]
struct Spelled {
    script: String,
    text: String,
}

impl Spelled {
    fn of(alloc: Global, example: &Example) -> Result<Spelled, AllocError> {
        Ok(Spelled {
            script: spelled(alloc, example.script)?,
            text: spelled(alloc, example.text)?,
        })
    }

    /// How the script ends if a read and a write fail, each by its number, and what is written then.
    fn ended<Rt: Threads + Sync + RandomSource>(
        &self,
        rt: &Rt,
        alloc: Global,
        read: usize,
        write: usize,
    ) -> Result<(Option<RunFault>, Vec<u8>), AllocError> {
        let mut reader = FailingSource::new(self.script.as_bytes(), read);
        let mut writer = FailingSink::new(Vec::with_capacity(alloc, self.text.len())?, write);
        let ended = run_by(rt, alloc, &Known::all(), &mut reader, &mut writer, 4, &Open);
        Ok((ended.err(), writer.taken))
    }

    /// Whether this is a prefix of the text.
    fn begins(&self, written: &[u8]) -> bool {
        self.text.as_bytes().starts_with(written)
    }
}

/// Each read of ten bytes, and those that find the end.
#[test]
fn failing_reads(rt: HostRuntime) -> Result<(), Fail> {
    for example in [FEES, IDS] {
        let own = Spelled::of(rt.alloc(), &example)?;
        let mut reads = 0;
        for read in 1usize..10_000 {
            let (fault, written) = own.ended(&rt, rt.alloc(), read, 0)?;
            if fault.is_none() {
                assert_eq!(rt; written.as_slice(), own.text.as_bytes());
                break;
            }
            assert_eq!(rt; fault, Some(RunFault::Read), "read {read}");
            assert!(rt; own.begins(written.as_slice()), "read {read}");
            reads = read;
        }
        assert!(rt; reads > own.script.len() / 10);
    }
    Ok(())
}

/// Each byte that is written.
#[test]
fn failing_writes(rt: HostRuntime) -> Result<(), Fail> {
    for example in [FEES, IDS] {
        let own = Spelled::of(rt.alloc(), &example)?;
        let bytes = own.text.len();
        for write in 1..=bytes {
            let (fault, written) = own.ended(&rt, rt.alloc(), 0, write)?;
            assert_eq!(rt; fault, Some(RunFault::Write), "write {write}");
            assert!(rt; written.len() < write && write - written.len() == 1);
            assert!(rt; own.begins(written.as_slice()), "write {write}");
        }
        let (fault, written) = own.ended(&rt, rt.alloc(), 0, bytes + 1)?;
        assert_eq!(rt; fault, None);
        assert_eq!(rt; written.as_slice(), own.text.as_bytes());
    }
    Ok(())
}

/// To be run with each allocation refused in turn.
#[test]
fn refused_memory(rt: HostRuntime) {
    for example in [FEES, IDS] {
        let Ok(own) = Spelled::of(rt.alloc(), &example) else {
            return;
        };
        let Ok((fault, written)) = own.ended(&rt, rt.alloc(), 0, 0) else {
            return;
        };
        match fault {
            None => assert_eq!(rt; written.as_slice(), own.text.as_bytes()),
            Some(fault) => {
                assert_eq!(rt; fault, RunFault::NoMemory);
                assert!(rt; own.begins(written.as_slice()));
            }
        }
    }
}
