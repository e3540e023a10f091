//! The seed by which the points of both copies of a board are hashed.

use lgm_gossip::Scid;
use lgm_graph::Known;
use lgm_publish::{Eye, Pen, board};
use lgm_store::Op;
use lgm_test_gossip::ops::channel;
use std::alloc::{AllocError, Global};
use std::io;
use std::process::Abort;
use std::random::RandomSource;
use std::sync::Wait;
use std::test::Fail;

const BYTES: [u8; 16] = *b"\x01\x02\x03\x04\x05\x06\x07\x08\x09\x0a\x0b\x0c\x0d\x0e\x0f\x10";

/// A runtime whose random bytes are known.
#[derive(Drop)]
struct Predicted<'a, Rt> {
    rt: &'a Rt,
}

impl<Rt: Wait> Wait for Predicted<'_, Rt> {}

impl<Rt> RandomSource for Predicted<'_, Rt> {
    fn fill_bytes(&self, buf: &mut [u8]) -> io::Result<()> {
        for (byte, known) in buf.iter_mut().zip(&BYTES) {
            *byte = *known;
        }
        Ok(())
    }
}

/// What is published last has this seed.
fn assert_published(rt: &impl Abort, eye: Eye) -> Eye {
    match eye.enter() {
        Ok(guard) => {
            assert_eq!(rt; guard.map().seed().bytes(), BYTES);
            assert_eq!(rt; guard.view().seed().bytes(), BYTES);
            guard.leave()
        }
        Err(_) => panic!(rt; "no guard"),
    }
}

/// Three channels.
fn channels(alloc: Global) -> Result<Vec<Op>, AllocError> {
    let mut ops = Vec::new(alloc);
    for block in 7..10u32 {
        ops.push(channel(alloc, Scid::new(block, 0, 0), (10, 11), 100_000, &[])?)?;
    }
    Ok(ops)
}

/// What is published before each operation and behind the last one has this seed.
fn assert_each<Rt: Wait + Abort>(rt: &Rt, pen: &mut Pen, mut eye: Eye, ops: Vec<Op>) {
    for op in ops {
        eye = assert_published(rt, eye);
        let _ = pen.append(op);
        let _ = pen.publish(rt);
    }
    assert_published(rt, eye);
}

/// Both copies of a board, which are published in turn.
#[test]
fn a_board_has_the_seed_that_the_system_gives(rt: HostRuntime) -> Result<(), Fail> {
    let alloc = rt.alloc();
    let ops = channels(alloc)?;
    let (mut pen, mut eyes) = board(&Predicted { rt: &rt }, alloc, 1, &Known::all())?;
    let eye = eyes.pop().expect(&rt, "an eye");
    assert_each(&rt, &mut pen, eye, ops);
    pen.end(&rt);
    Ok(())
}
