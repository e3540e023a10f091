//! A payment that is tried until it arrives. What the payer knows of its own channels is an overlay on the map, and what
//! each try teaches of others are estimates.

use crate::messages::{point, scid};
use lgm_graph::{Estimates, ExtraEdge, Hop, Overlay, Route, RoutingGraph};
use lgm_publish::{Eye, Guard};
use lgm_route::{
    Found, Preferences, Request, RouteFault, RouteLimits, Search, SearchBudget, SearchFault,
    find_over,
};
use std::alloc::{AllocError, Global};
use std::fmt;

/// The number of times that a payment is tried.
const TRIES: u32 = 3;

/// A would rather pay 20 sat than have a try fail, and 500 msat than use a channel more.
const PREFERENCES: Preferences = Preferences {
    failure_msat: 20_000,
    hop_msat: 500,
};

/// A payment locks what it sends for at most 1,008 blocks, a week.
const LIMITS: RouteLimits = RouteLimits {
    most_delay: Some(1_008),
    most_hops: 20,
};

/// A search takes at most a million labels, some 40 MB. If they run out, the best route so far is tried.
const BUDGET: SearchBudget = SearchBudget {
    most_labels: 1_000_000,
    most_steps: u64::MAX,
};

/// How a payment ends.
#[derive(Clone, Copy, Debug, PartialEq, Eq)]
pub enum Ended {
    /// It arrives at this try, and this is the HTLC that the payer offers.
    Paid(u32, Hop),
    /// There is no route over what is left, or none was found.
    NotPaid(SearchFault),
    /// The last try failed, too.
    GaveUp,
}

impl fmt::Display for Ended {
    fn fmt<W: fmt::Write>(&self, f: &mut fmt::Formatter<W>) -> fmt::Result {
        match self {
            Ended::Paid(tries, first) => {
                let (amount, block) = (first.amount, first.scid.block());
                write!(
                    f,
                    "at try {tries}, A sends {amount} msat over the channel of block {block}"
                )
            }
            Ended::NotPaid(fault) => write!(f, "A doesn't pay: {fault}"),
            Ended::GaveUp => write!(f, "A gives up"),
        }
    }
}

/// Out of memory.
const NO_MEMORY: Ended = Ended::NotPaid(SearchFault::Fault(RouteFault::NoMemory));

/// What A knows beside the map.
#[derive(Drop)]
struct Knowledge {
    /// Its own channels.
    own: Overlay,
    /// What tries taught it of channels.
    estimates: Estimates,
}

/// A channel of the payer A, with what A can send over it, in msat. Its terms don't matter: the payer's own channel
/// charges nothing.
fn own_channel(number: u32, peer: u8, balance: u64) -> ExtraEdge {
    ExtraEdge {
        scid: scid(number),
        from: point(10),
        to: point(peer),
        base: 0,
        millionths: 0,
        delta: 0,
        min: 0,
        max: balance,
    }
}

impl Knowledge {
    /// What A knows before the first try. Its own channels stand in place of all that the map has of them. It is in a box:
    /// a proof takes long for a function that owns it itself.
    fn new(alloc: Global) -> Result<Box<Knowledge>, AllocError> {
        let mut knowledge = Box::new(
            alloc,
            Knowledge {
                own: Overlay::new(alloc),
                estimates: Estimates::new(alloc),
            },
        )?;
        knowledge.own.silence(point(10))?;
        knowledge.own.add(own_channel(1, 11, 30_000_000))?;
        knowledge.own.add(own_channel(3, 12, 20_000_000))?;
        Ok(knowledge)
    }

    /// Learns from a try that failed at a hop: the hops before it carried what they were offered.
    fn learn(&mut self, route: &Route, failed: &Hop) -> Result<(), AllocError> {
        for hop in route.as_slice() {
            if hop == failed {
                break;
            }
            self.estimates.carried(hop.scid, &hop.from, hop.amount)?;
        }
        self.estimates
            .failed(failed.scid, &failed.from, failed.amount)
    }
}

/// Offers the payment along a route: the hop at which it fails, if any. Here channel 2 has 400,000 msat on B's side,
/// which no gossip says. A node would build the payloads and an onion of them, and wait for the outcome.
fn offer(route: &Route) -> Option<Hop> {
    route
        .as_slice()
        .iter()
        .find(|hop| hop.scid == scid(2) && hop.amount > 400_000)
        .copied()
}

/// The best route by what A prefers and knows, on the map that a guard shows.
fn find(
    alloc: Global,
    guard: &Guard,
    knowledge: &Knowledge,
    request: &Request,
) -> Result<Found, SearchFault> {
    let view = guard.view();
    // Each extra edge may add two nodes to those of the view, which are numbered by 32 bits.
    if view.nodes() > 4_000_000_000 || knowledge.own.extra_count() > 1_000_000 {
        return Err(SearchFault::Fault(RouteFault::NoMemory));
    }
    let search = Search {
        preferences: PREFERENCES,
        estimates: &knowledge.estimates,
        limits: LIMITS,
        budget: BUDGET,
    };
    find_over(alloc, guard.map(), view, &knowledge.own, &search, request)
}

/// Offers the payment along a route, and learns from it if it fails. Returns how the payment ends, if it does.
fn send(knowledge: &mut Knowledge, route: &Route, tries: u32) -> Option<Ended> {
    let Some(failed) = offer(route) else {
        return Some(Ended::Paid(tries, route.as_slice()[0]));
    };
    match knowledge.learn(route, &failed) {
        Ok(()) => None,
        Err(AllocError) => Some(NO_MEMORY),
    }
}

/// Tries a payment once, on the map published last. Returns the eye, and how the payment ends, if it does.
fn try_once(
    alloc: Global,
    eye: Eye,
    knowledge: &mut Knowledge,
    request: &Request,
    tries: u32,
) -> (Eye, Option<Ended>) {
    let guard = match eye.enter() {
        Ok(guard) => guard,
        Err(eye) => return (eye, Some(Ended::GaveUp)),
    };
    let answer = find(alloc, &guard, knowledge, request);
    // The payment takes long, so the guard is left before.
    let eye = guard.leave();
    match answer {
        Ok(found) => (eye, send(knowledge, &found.route, tries)),
        Err(fault) => (eye, Some(Ended::NotPaid(fault))),
    }
}

/// A pays D 1,000,000 msat. Returns the eye, and how that ends.
pub fn pay(alloc: Global, eye: Eye) -> (Eye, Ended) {
    let request = Request {
        payer: point(10),
        payee: point(13),
        amount: 1_000_000,
        expiry: 700_000,
    };
    let Ok(mut knowledge) = Knowledge::new(alloc) else {
        return (eye, NO_MEMORY);
    };
    let mut eye = eye;
    for tries in 1..=TRIES {
        let (back, ended) = try_once(alloc, eye, &mut knowledge, &request, tries);
        eye = back;
        if let Some(ended) = ended {
            return (eye, ended);
        }
    }
    (eye, Ended::GaveUp)
}
