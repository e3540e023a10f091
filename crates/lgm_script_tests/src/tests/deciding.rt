//! What the words decide: the number of workers; and the line of a run that failed.

use super::starting::{CHAIN, Given, started, started_in};
use lgm_answers::RunFault;
use lgm_par::Gate;
use lgm_start::fault_line;
use std::sync::atomic::{AtomicU64, Ordering};
use std::test::Fail;

/// The greatest number of a piece that passed.
#[derive(Drop)]
struct Greatest {
    piece: AtomicU64,
}

impl Gate for Greatest {
    fn pass(&self, piece: usize) {
        self.piece.fetch_max(piece as u64, Ordering::SeqCst);
    }
}

// Requests that are read at once are answered in as many pieces as there are workers.
#[test]
fn as_many_pieces_as_workers(rt: HostRuntime) -> Result<(), Fail> {
    let alloc = rt.alloc();
    let mut script = String::new(alloc);
    for _ in 0..64 {
        script.push_str("q 00\n")?;
    }
    let all = ["lgm", "run", "--chain", CHAIN, "--workers"];
    for (workers, want) in [("1", 0), ("2", 1), ("3", 2), ("64", 63), ("", 3)] {
        let mut words = Vec::from_slice(alloc, &all)?;
        if workers.is_empty() {
            words.pop();
        } else {
            words.push(workers)?;
        }
        let gate = Greatest {
            piece: AtomicU64::new(0),
        };
        let given = Given {
            words: words.as_slice(),
        };
        let (status, _, _) = started_in(&rt, alloc, given, &gate, script.as_bytes(), 10_000);
        assert_eq!(rt; status, 0, "at {workers}");
        assert_eq!(rt; gate.piece.load(Ordering::SeqCst), want, "at {workers}");
    }
    Ok(())
}

// The pieces of `lgm live` are its workers, and behind them the writer.
#[test]
fn as_many_workers_of_live_as_the_words_say(rt: HostRuntime) -> Result<(), Fail> {
    let alloc = rt.alloc();
    let all = ["lgm", "live", "--chain", CHAIN, "--workers"];
    for (workers, want) in [("1", 1), ("2", 2), ("3", 3), ("64", 64), ("", 4)] {
        let mut words = Vec::from_slice(alloc, &all)?;
        if workers.is_empty() {
            words.pop();
        } else {
            words.push(workers)?;
        }
        let gate = Greatest {
            piece: AtomicU64::new(0),
        };
        let given = Given {
            words: words.as_slice(),
        };
        let (status, _, _) = started_in(&rt, alloc, given, &gate, b"commit\n", 10_000);
        assert_eq!(rt; status, 0, "at {workers}");
        assert_eq!(rt; gate.piece.load(Ordering::SeqCst), want, "at {workers}");
    }
    Ok(())
}

#[test]
fn each_fault_has_its_line(rt: HostRuntime) -> Result<(), Fail> {
    for (fault, want) in [
        (RunFault::Read, "lgm: read failed\n"),
        (RunFault::Write, "lgm: write failed\n"),
        (RunFault::NoMemory, "lgm: out of memory\n"),
        (RunFault::TooManyLines, "lgm: too many lines\n"),
        (RunFault::LineTooLong, "lgm: line too long\n"),
        (RunFault::Closed, "lgm: board closed\n"),
        (RunFault::Versions, "lgm: versions disagree\n"),
    ] {
        assert_eq!(rt; fault_line(fault), want);
    }
    Ok(())
}

// To be run with each allocation refused in turn. One that is refused to a device in memory is a failed write.
#[test]
fn refused_memory_has_its_line(rt: HostRuntime) -> Result<(), Fail> {
    let words = ["lgm", "run", "--chain", CHAIN, "--known", "00"];
    let (status, writer, errors) = started(&rt, rt.alloc(), &words, b"commit\nq 00\n");
    let whole = b"1 commit 0\n2 malformed\n".as_slice();
    assert!(rt; whole.starts_with(writer.taken()));
    if status == 0 {
        assert_eq!(rt; writer.taken(), whole);
        return Ok(());
    }
    assert_eq!(rt; status, 1);
    let line = errors.taken();
    assert!(rt;
        line == b"lgm: out of memory\n".as_slice()
            || line == b"lgm: write failed\n".as_slice()
            || line.is_empty()
    );
    Ok(())
}
