//! How the lines of a script are shared by workers.

use lgm_graph::Known;
use lgm_par::Gate;
use lgm_test_scripts::{ended, spelled};
use std::sync::atomic::{AtomicU64, Ordering};
use std::test::Fail;

/// Counts all chunks, and how often each of the first eight passes, eight bits for each.
#[derive(Drop)]
struct Passes {
    all: AtomicU64,
    each: AtomicU64,
}

impl Gate for Passes {
    fn pass(&self, piece: usize) {
        self.all.fetch_add(1, Ordering::SeqCst);
        if piece < 8 {
            self.each.fetch_add(1 << (8 * piece), Ordering::SeqCst);
        }
    }
}

/// An announcement, one whose last byte is missing, and one with bytes behind it.
const THREE_ITEMS: &str = "m ca(600000x1x0,A,B) all 100000\n\
    m ca(600000x1x0,A,B,cut=1) all 100000\n\
    m [ca(600000x2x0,A,B) 0102030405] all 100000\n";

#[test]
fn three_items_are_three_pieces(rt: HostRuntime) -> Result<(), Fail> {
    let alloc = rt.alloc();
    let script = spelled(alloc, THREE_ITEMS)?;
    let gate = Passes {
        all: AtomicU64::new(0),
        each: AtomicU64::new(0),
    };
    let known = Known::all();
    let (ended, writer) = ended(&rt, alloc, &known, script.as_bytes(), 1_000_000, 64, &gate);
    assert_eq!(rt; ended?.lines, 3);
    assert_eq!(rt;
        writer.taken(),
        b"1 accepted\n2 malformed\n3 accepted\n".as_slice()
    );
    assert_eq!(rt; gate.each.load(Ordering::SeqCst), 0x0001_0101);
    assert_eq!(rt; gate.all.load(Ordering::SeqCst), 3);
    Ok(())
}
