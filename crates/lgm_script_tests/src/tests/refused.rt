//! Routes when memory is refused.

use lgm_graph::Known;
use lgm_par::Open;
use lgm_server::RunFault;
use lgm_test_scripts::{ended, spelled};

/// All kinds of items, with payments before and after each commit.
const SCRIPT: &str = "m ca(1x0x0,P0,P1) all 100000\n\
    m cu(1x0x0,0,1) P0 -\n\
    m ca(2x0x0,P1,P2) all 100000\n\
    m cu(2x0x0,0,1) P1 -\n\
    m ca(3x0x0,P0,P2) all 100000\n\
    m cu(3x0x0,0,1) P0 -\n\
    m na(P1,5,features=01) P1 -\n\
    commit\n\
    route P0 P2 1000 700000 S\n\
    close 3x0x0\n\
    route P0 P2 1000 700000 S\n\
    commit\n\
    route P0 P2 1000 700000 S\n\
    m cu(2x0x0,1,1) P2 -\n\
    m ca(2x0x0,P3,P4) all 100000\n\
    commit\n\
    route P0 P2 1000 700000 S\n\
    route P0 P1 1000 700000 S\n\
    commit\n";

/// Its text: a route over the third channel, then over the first two, and none after the ban.
const TEXT: &str = "1 accepted\n\
    2 accepted\n\
    3 accepted\n\
    4 accepted\n\
    5 accepted\n\
    6 accepted\n\
    7 accepted\n\
    8 commit 7\n\
    9 route 1000 700000 1\n\
    9 hop 3x0x0 [2d 020203e8 04030aae60 0822 S 03e8]\n\
    10 accepted\n\
    11 route 1000 700000 1\n\
    11 hop 3x0x0 [2d 020203e8 04030aae60 0822 S 03e8]\n\
    12 commit 8\n\
    13 route 1000 700040 2\n\
    13 hop 1x0x0 [13 020203e8 04030aae60 0608 0000020000000000]\n\
    13 hop 2x0x0 [2d 020203e8 04030aae60 0822 S 03e8]\n\
    14 accepted\n\
    15 accepted\n\
    16 commit 10\n\
    17 no-route\n\
    18 no-route\n\
    19 commit 10\n";

/// To be run with each allocation refused in turn. The writer fails if memory is refused to it.
#[test]
fn refused_memory(rt: HostRuntime) {
    let alloc = rt.alloc();
    let (Ok(script), Ok(text)) = (spelled(alloc, SCRIPT), spelled(alloc, TEXT)) else {
        return;
    };
    let known = Known::all();
    let script = script.as_bytes();
    let (ended, writer) = ended(&rt, alloc, &known, script, 100_000, 2, &Open);
    match ended {
        Ok(_) => assert_eq!(rt; writer.taken(), text.as_bytes()),
        Err(fault) => {
            assert!(rt; fault == RunFault::NoMemory || fault == RunFault::Write);
            assert!(rt; text.as_bytes().starts_with(writer.taken()));
        }
    }
}
