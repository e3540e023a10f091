//! What a board takes: it is bounded by what there is, whatever has been.

use lgm_gossip::Scid;
use lgm_graph::{Known, RoutingGraph};
use lgm_publish::{Eye, Pen, board};
use lgm_store::Op;
use lgm_test_gossip::ops::channel;
use std::alloc::{AllocError, Global};
use std::sync::Wait;
use std::test::Fail;

/// 10,000 channels, each between two nodes that come with it, and its close, with which they go.
fn coming_and_going(alloc: Global) -> Result<Vec<Op>, AllocError> {
    let mut ops = Vec::new(alloc);
    for pair in 0..10_000u16 {
        let first = pair.wrapping_mul(2);
        let nodes = (first, first.wrapping_add(1));
        ops.push(channel(alloc, Scid::new(7, 0, 0), nodes, 100_000, &[])?)?;
        ops.push(Op::Close(Scid::new(7, 0, 0)))?;
    }
    Ok(ops)
}

/// The points of the view that is published last.
fn published_points(eye: Eye) -> (Eye, usize) {
    match eye.enter() {
        Ok(guard) => {
            let points = guard.view().nodes();
            (guard.leave(), points)
        }
        Err(eye) => (eye, usize::MAX),
    }
}

/// The most points that are published.
fn most_published<Rt: Wait>(rt: &Rt, mut pen: Pen, mut eye: Eye, ops: Vec<Op>) -> usize {
    let mut most = 0;
    for op in ops {
        let _ = pen.append(op);
        let _ = pen.publish(rt);
        let (back, points) = published_points(eye);
        eye = back;
        most = points.max(most);
    }
    pen.end(rt);
    most
}

/// Of 20,000 nodes that come and go, a view that is published numbers 1,026 at most, for each of none four.
#[test]
fn a_board_forgets_nodes(rt: HostRuntime) -> Result<(), Fail> {
    let alloc = rt.alloc();
    let ops = coming_and_going(alloc)?;
    let (pen, mut eyes) = board(&rt, alloc, 1, &Known::all())?;
    let eye = eyes.pop().expect(&rt, "an eye");
    let most = most_published(&rt, pen, eye, ops);
    assert!(rt; most <= 1_026, "{most} points");
    Ok(())
}
