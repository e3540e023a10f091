//! A route server in a few lines: one thread takes gossip while two others answer payments.
//!
//! [`taking`] is the writer's side, [`answering`] a reader's, and [`messages`] makes the gossip, which a node would get
//! from its peers. [`retrying`] is a reader's payment that fails at first, and is tried again. The page `docs/readers.md` explains the calls.
//!
//! Where an error is `AllocError`, memory ran out.
#![tactic(auto)]

mod answering;
mod messages;
mod retrying;
mod taking;

use crate::answering::{Tally, answer_all};
use crate::messages::{announcement, update};
use crate::retrying::{Ended, pay};
use crate::taking::Taker;
use lgm_graph::Known;
use lgm_publish::{Eye, Pen, board};
use lgm_store::Seed;
use std::alloc::Global;
use std::io;
use std::marker::Sync;
use std::process::ExitCode;
use std::sync::Wait;
use std::thread::{Threads, join, join_mut};

/// The number of times that the fee changes while payments are answered.
const CHANGES: u32 = 50;

/// The number of payments that each reader answers meanwhile.
const PAYMENTS: u32 = 1_000;

/// Takes the channels 1 of A with B and 2 of B with D, and 3 of A with C and 4 of C with D, and publishes them.
fn open<Rt: Wait>(rt: &Rt, alloc: Global, taker: &mut Taker, pen: &mut Pen) -> bool {
    for message in [
        announcement(alloc, 1, 10, 11),
        update(alloc, 1, 10, 1, 0),
        announcement(alloc, 2, 11, 13),
        update(alloc, 2, 11, 1, 1_000),
        announcement(alloc, 3, 10, 12),
        update(alloc, 3, 10, 1, 0),
        announcement(alloc, 4, 12, 13),
        update(alloc, 4, 12, 1, 5_000),
    ] {
        let Ok((bytes, evidence)) = message else {
            return false;
        };
        if taker.take(alloc, pen, bytes.as_slice(), &evidence).is_err() {
            return false;
        }
    }
    pen.publish(rt).is_ok()
}

/// Changes the fee of the second channel repeatedly, and publishes each change.
fn change<Rt: Wait>(rt: &Rt, alloc: Global, taker: &mut Taker, pen: &mut Pen) -> bool {
    for turn in 1..=CHANGES {
        let Ok((bytes, evidence)) = update(alloc, 2, 11, 1 + turn, 1_000 + turn) else {
            return false;
        };
        if taker.take(alloc, pen, bytes.as_slice(), &evidence).is_err()
            || pen.publish(rt).is_err()
        {
            return false;
        }
    }
    true
}

/// What both readers have observed in the end, each with its eye.
type Seen = ((Eye, Tally), (Eye, Tally));

/// Runs both readers while the fee changes.
fn serve<Rt: Threads + Wait + Sync>(
    rt: &Rt,
    alloc: Global,
    taker: &mut Taker,
    pen: &mut Pen,
    eyes: (Eye, Eye),
) -> Option<Seen> {
    let mut given = Some(eyes);
    let (changed, seen) = join_mut(
        rt,
        &mut || -> bool { change(rt, alloc, taker, pen) },
        &mut || -> Option<Seen> {
            let (first, second) = given.take()?;
            Some(join(
                rt,
                move || answer_all(alloc, first, PAYMENTS),
                move || answer_all(alloc, second, PAYMENTS),
            ))
        },
    );
    if changed { seen } else { None }
}

/// Runs the server. Returns what the readers have observed, what one of them observes after the last publication, and how
/// its payment ends.
fn run<Rt: Threads + Wait + Sync>(
    rt: &Rt,
    alloc: Global,
    taker: &mut Taker,
    pen: &mut Pen,
    eyes: (Eye, Eye),
) -> Option<(Tally, Tally, Tally, Ended)> {
    if !open(rt, alloc, taker, pen) {
        return None;
    }
    let ((eye, first), (_eye, second)) = serve(rt, alloc, taker, pen, eyes)?;
    let (eye, last) = answer_all(alloc, eye, 1);
    let (_eye, ended) = pay(alloc, eye);
    Some((first, second, last, ended))
}

fn main(rt: HostRuntime) -> io::Result<ExitCode> {
    let alloc = rt.alloc();
    let mut taker = Taker::new(alloc, Seed::random(&rt))?;
    let Ok((mut pen, mut eyes)) = board(&rt, alloc, 2, &Known::all()) else {
        return Ok(ExitCode::FAILURE);
    };
    let seen = match (eyes.pop(), eyes.pop()) {
        (Some(first), Some(second)) => run(&rt, alloc, &mut taker, &mut pen, (first, second)),
        _ => None,
    };
    let published = pen.published();
    pen.end(&rt);
    let Some((first, second, last, ended)) = seen else {
        return Ok(ExitCode::FAILURE);
    };
    for tally in [first, second] {
        println!(rt;
            "{} answers, {} of them by their version, {} behind a later one",
            tally.routed, tally.right, tally.fell
        )?;
    }
    println!(rt; "{published} operations are published")?;
    println!(rt; "on version {}, A sends {} msat", last.version, last.sent)?;
    println!(rt; "{ended}")?;
    Ok(ExitCode::SUCCESS)
}
