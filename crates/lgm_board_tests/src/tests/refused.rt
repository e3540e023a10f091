//! What calls leave if memory is refused. To be run with each allocation refused in turn.

use super::{channel, scid, update};
use lgm_graph::Known;
use lgm_publish::{AppendCause, Pen, PublishFault, board};
use lgm_store::Op;
use std::sync::Wait;
use std::test::Fail;

/// Appends an operation; one that is returned since memory ran out is appended again.
fn append(pen: &mut Pen, op: Op) -> bool {
    match pen.append(op) {
        Ok(()) => true,
        Err(fault) => fault.cause == AppendCause::NoMemory && pen.append(fault.op).is_ok(),
    }
}

/// Publishes; if memory is refused nothing is published, and the next call publishes all.
fn publish<Rt: Wait>(rt: &Rt, pen: &mut Pen) -> bool {
    let before = pen.published();
    pen.publish(rt).is_ok() || (pen.published() == before && pen.publish(rt).is_ok())
}

#[test]
fn nothing_is_lost(rt: HostRuntime) -> Result<(), Fail> {
    let alloc = rt.alloc();
    let (Ok(first), Ok(second)) = (channel(alloc), update(alloc, 0)) else {
        return Ok(());
    };
    let (mut pen, mut eyes) = match board(&rt, alloc, 1, &Known::all()) {
        Ok(made) => made,
        Err(fault) => {
            assert_eq!(rt; fault, PublishFault::NoMemory);
            return Ok(());
        }
    };
    let eye = eyes.pop().expect(&rt, "an eye");
    let appended = append(&mut pen, first) && append(&mut pen, second);
    let once = publish(&rt, &mut pen);
    let closed = append(&mut pen, Op::Close(scid()));
    let twice = publish(&rt, &mut pen);
    let published = pen.published();
    let version = match eye.enter() {
        Ok(guard) => {
            let version = guard.version();
            guard.leave();
            version
        }
        Err(_back) => 9,
    };
    pen.end(&rt);
    assert!(rt; appended && once && closed && twice);
    assert_eq!(rt; (published, version), (3, 3));
    Ok(())
}
