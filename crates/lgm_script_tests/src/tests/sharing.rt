//! A payment that is alone in its group, shared by workers.

use super::workers::{answered, counter};
use lgm_test_scripts::spelled;
use std::test::Fail;

/// Two ways of two channels.
const SCRIPT: &str = "m ca(1x0x0,P0,P1) all 100000\n\
    m cu(1x0x0,0,1) P0 -\n\
    m ca(2x0x0,P0,P2) all 100000\n\
    m cu(2x0x0,0,1) P0 -\n\
    m ca(3x0x0,P1,P3) all 100000\n\
    m cu(3x0x0,0,1) P1 -\n\
    m ca(4x0x0,P2,P3) all 100000\n\
    m cu(4x0x0,0,1) P2 -\n\
    commit\n\
    route P0 P3 1000 700000 S\n";

const TEXT: &str = "1 accepted\n\
    2 accepted\n\
    3 accepted\n\
    4 accepted\n\
    5 accepted\n\
    6 accepted\n\
    7 accepted\n\
    8 accepted\n\
    9 commit 8\n\
    10 route 1000 700040 2\n\
    10 hop 1x0x0 [13 020203e8 04030aae60 0608 0000030000000000]\n\
    10 hop 3x0x0 [2d 020203e8 04030aae60 0822 S 03e8]\n";

/// The items are shared by two workers, and so are the two nodes before the payee, whose first piece is delayed until
/// the second has begun. The payment is a piece alone, and so is the payee.
#[test]
fn lone_payment(rt: HostRuntime) -> Result<(), Fail> {
    let alloc = rt.alloc();
    let (script, text) = (spelled(alloc, SCRIPT)?, spelled(alloc, TEXT)?);
    let gate = counter(2);
    let written = answered(&rt, alloc, script.as_bytes(), 2, &gate)?;
    assert_eq!(rt; written.as_slice(), text.as_bytes());
    assert!(rt; gate.went_on(), "ended at the limit");
    assert_eq!(rt; gate.of_piece(0), 4);
    assert_eq!(rt; gate.of_piece(1), 2);
    Ok(())
}
