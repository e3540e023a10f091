//! A reader's side: answers payments on the map published last.

use crate::messages::point;
use lgm_publish::{Eye, Guard};
use lgm_route::{Request, RouteFault, least};
use std::alloc::{AllocError, Global};

/// What a reader has observed.
#[derive(Clone, Copy, Debug, PartialEq, Eq)]
pub struct Tally {
    /// The number of payments that have a route.
    pub routed: u32,
    /// The number of those whose fee is that of the map version on which they were answered.
    pub right: u32,
    /// The number that were answered on a shorter map than an earlier one.
    pub fell: u32,
    /// The number without an answer because memory ran out. There may be a route.
    pub unanswered: u32,
    /// The version of the last answer.
    pub version: u64,
    /// What the payer sends over the last route, in msat.
    pub sent: u64,
}

/// What the payer A sends so that D receives 1,000,000 msat, on the map that a guard shows; none if there is no route.
fn find(alloc: Global, guard: &Guard) -> Result<Option<u64>, AllocError> {
    let request = Request {
        payer: point(10),
        payee: point(13),
        amount: 1_000_000,
        expiry: 700_000,
    };
    match least(alloc, guard.view(), &request) {
        Ok(route) => Ok(Some(route.sent())),
        Err(RouteFault::NoMemory) => Err(AllocError),
        Err(_) => Ok(None),
    }
}

impl Tally {
    /// No payment has been answered.
    pub fn new() -> Tally {
        Tally {
            routed: 0,
            right: 0,
            fell: 0,
            unanswered: 0,
            version: 0,
            sent: 0,
        }
    }

    /// Adds an answer. From the eighth operation on, each raises the fee by 1 msat.
    fn add(&mut self, version: u64, sent: u64) {
        self.routed = self.routed.saturating_add(1);
        if sent == version.saturating_add(1_000_992) {
            self.right = self.right.saturating_add(1);
        }
        if version < self.version {
            self.fell = self.fell.saturating_add(1);
        }
        self.version = version;
        self.sent = sent;
    }
}

/// Answers this many payments, each on the map published last. Returns the eye.
pub fn answer_all(alloc: Global, eye: Eye, payments: u32) -> (Eye, Tally) {
    let mut tally = Tally::new();
    let mut eye = eye;
    for _payment in 0..payments {
        match eye.enter() {
            Ok(guard) => {
                match find(alloc, &guard) {
                    Ok(Some(sent)) => tally.add(guard.version(), sent),
                    Ok(None) => {}
                    Err(AllocError) => tally.unanswered = tally.unanswered.saturating_add(1),
                }
                eye = guard.leave();
            }
            Err(back) => return (back, tally),
        }
    }
    (eye, tally)
}
